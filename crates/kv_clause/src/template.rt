ghost use Rattle.std.specs.Prelude.{◌*◌, ◌≤◌, ◌<◌, ◌^◌};
ghost use Rattle.std.specs.List.{All};
ghost use Rattle.sat_clause.specs.Literals.{variable_of, AreBelow, ClausesAreBelow};

use crate::bound::BoundLits;
use kv_base::{Copied, NoMemory, Sequence};
use kv_num::IntType;
use sat_clause::{Clauses, Lit, Lits};
use std::alloc::Global;

/// A place where an input may be taken: whether it is, and the input's bits, lowest first, as a number of this type.
#[derive(Debug, Drop)]
pub struct Site {
    pub taken: Lit,
    pub bits: Lits,
    pub kind: IntType,
}

pub type Sites = Sequence<Site>;

/// One block of a program as clauses. The variables below `state` are the block's beginning, and the last `state`
/// variables are its end.
#[derive(Debug, Drop)]
pub struct Template {
    pub vars: u64,
    pub state: u64,
    pub clauses: Clauses,
    /// What makes a beginning a start of the program.
    pub start: Clauses,
    /// What makes a beginning an arrival at a loop head.
    pub head: Clauses,
    /// True where the block breaks a check.
    pub broken: Lit,
    /// True where the block arrives at a loop head.
    pub next: Lit,
    /// The candidates in their order.
    pub bounds: BoundLits,
    /// Where inputs may be taken, in an order that every path keeps.
    pub sites: Sites,
    ghost room: { 2 * state ≤ vars },
    ghost small: { vars ≤ 2 ^ 48 },
    ghost clauses_below: { ClausesAreBelow vars clauses },
    ghost start_below: { ClausesAreBelow vars start },
    ghost head_below: { ClausesAreBelow vars head },
    ghost broken_below: { variable_of broken < vars },
    ghost next_below: { variable_of next < vars },
    ghost bounds_below: { All (λ b. variable_of b.lit < vars) bounds },
    ghost taken_below: { All (λ s. variable_of s.taken < vars) sites },
    ghost bits_below: { All (λ s. AreBelow vars s.bits) sites },
}

impl Copied for Site {
    fn copy(&self, alloc: Global) -> Result<Site, NoMemory> {
        Ok(Site {
            taken: self.taken,
            bits: self.bits.copy(alloc)?,
            kind: self.kind,
        })
    }
}

impl Copied for Template {
    fn copy(&self, alloc: Global) -> Result<Template, NoMemory> {
        Ok(Template {
            vars: self.vars,
            state: self.state,
            clauses: self.clauses.copy(alloc)?,
            start: self.start.copy(alloc)?,
            head: self.head.copy(alloc)?,
            broken: self.broken,
            next: self.next,
            bounds: self.bounds.copy(alloc)?,
            sites: self.sites.copy(alloc)?,
        })
    }
}

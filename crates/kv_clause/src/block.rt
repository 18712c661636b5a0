ghost use Rattle.std.specs.Prelude.{◌≡◌, ◌≤◌, ◌<◌, ◌^◌, IfOk, map};
ghost use Rattle.sat_clause.specs.Literals.{AreBelow, moved};
ghost use Rattle.kv_clause.specs.Blocks.{block_of};

use crate::template::Template;
use kv_base::{Copied, NoMemory, Sequence};
use sat_clause::{Clause, Clauses};
use std::alloc::Global;

/// The clauses of one block of an unwinding, whose blocks count from 0.
#[derive(Debug, Drop)]
pub struct Block {
    pub index: u32,
    pub clauses: Clauses,
}

/// Block `i` of the template, `i` at most 255: each variable v is moved to `v + i * (vars - state)`, so that the
/// end of a block is the beginning of the next.
pub fn shift(alloc: Global, t: &Template, i: u32) -> Result<Block, NoMemory>
    requires { i ≤ 255 }
    ensures index { IfOk result (λ b. b.index ≡ i) }
    ensures clauses { IfOk result (λ b. b.clauses ≡ block_of t.now i) }
{
    let by = u64::from(i) * (t.vars - t.state);
    let mut clauses = Sequence::new(alloc);
    for clause in t.clauses.as_slice() {
        clauses.push(moved_clause(alloc, clause, by)?)?;
    }
    Ok(Block { index: i, clauses })
}

/// A clause with all its variables moved up by this many.
fn moved_clause(alloc: Global, clause: &Clause, by: u64) -> Result<Clause, NoMemory>
    requires below { AreBelow (2 ^ 48) clause.now }
    requires near { by < 2 ^ 56 }
    ensures { IfOk result (λ c. c ≡ map (moved by) clause.now) }
{
    let mut made = Sequence::new(alloc);
    for lit in clause.as_slice() {
        made.push(lit.moved(by))?;
    }
    Ok(made)
}

impl Copied for Block {
    fn copy(&self, alloc: Global) -> Result<Block, NoMemory> {
        Ok(Block {
            index: self.index,
            clauses: self.clauses.copy(alloc)?,
        })
    }
}

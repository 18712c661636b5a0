ghost use Rattle.std.specs.Prelude.{◌≡◌};

use crate::bound::Bounds;
use kv_base::{Copied, NoMemory};
use std::alloc::Global;
use std::fmt;

/// A question about the blocks of a program, each of which a set of clauses puts. `k` counts the blocks, from 1, and
/// `round` the rounds, from 1.
#[derive(Debug, Drop)]
pub enum Query {
    /// From the start, k - 1 blocks arrive and the next breaks.
    Base { k: u32 },
    /// From the start, k blocks arrive.
    Forward { k: u32 },
    /// From a loop head, k - 1 blocks arrive and the next breaks, with each bound true at each of their beginnings.
    Step { k: u32, under: Bounds },
    /// From the start, one block arrives where some bound of the set is false.
    First { round: u32, set: Bounds },
    /// From a loop head where each bound of the set is true, one block arrives where some is false.
    Induct { round: u32, set: Bounds },
    /// As `Step`, under the bounds of the largest inductive set.
    Closing { k: u32, under: Bounds },
}

impl Query {
    ghost use Rattle.kv_clause.specs.Queries.{blocks_in};

    /// How many blocks it is about.
    pub fn blocks(&self) -> u32
        ensures { result ≡ blocks_in self.now }
    {
        match self {
            Query::Base { k } | Query::Forward { k } => *k,
            Query::Step { k, .. } | Query::Closing { k, .. } => *k,
            Query::First { .. } | Query::Induct { .. } => 2,
        }
    }
}

impl fmt::Display for Query {
    ghost use Rattle.std.specs.Prelude.{Some};
    ghost use Rattle.kv_clause.specs.Names.{name_of};

    ghost output = { λ q. Some (name_of q) };

    fn fmt<W: fmt::Write>(&self, f: &mut fmt::Formatter<W>) -> fmt::Result {
        match self {
            Query::Base { k } => write!(f, "base case {k}"),
            Query::Forward { k } => write!(f, "forward condition {k}"),
            Query::Step { k, .. } => write!(f, "inductive step {k}"),
            Query::First { round, .. } => write!(f, "first arrivals {round}"),
            Query::Induct { round, .. } => write!(f, "inductive subset {round}"),
            Query::Closing { k, .. } => write!(f, "closing step {k}"),
        }
    }
}

impl Copied for Query {
    fn copy(&self, alloc: Global) -> Result<Query, NoMemory> {
        Ok(match self {
            Query::Base { k } => Query::Base { k: *k },
            Query::Forward { k } => Query::Forward { k: *k },
            Query::Step { k, under } => Query::Step {
                k: *k,
                under: under.copy(alloc)?,
            },
            Query::First { round, set } => Query::First {
                round: *round,
                set: set.copy(alloc)?,
            },
            Query::Induct { round, set } => Query::Induct {
                round: *round,
                set: set.copy(alloc)?,
            },
            Query::Closing { k, under } => Query::Closing {
                k: *k,
                under: under.copy(alloc)?,
            },
        })
    }
}

use kv_base::{Copied, NoMemory, Sequence};
use sat_clause::Lit;
use std::alloc::Global;

/// A fact at a loop head: the number in a cell is at least, or at most, a given one.
#[derive(Clone, Copy, Debug, PartialEq, Eq, Drop)]
pub struct Bound {
    pub head: u32,
    pub cell: u32,
    pub at_least: bool,
    pub number: i128,
}

pub type Bounds = Sequence<Bound>;

/// A bound, and the literal that is true exactly where the bound holds at a block's beginning.
#[derive(Clone, Copy, Debug, PartialEq, Eq, Drop)]
pub struct BoundLit {
    pub bound: Bound,
    pub lit: Lit,
}

pub type BoundLits = Sequence<BoundLit>;

impl Copied for Bound {
    fn copy(&self, _alloc: Global) -> Result<Bound, NoMemory> {
        Ok(*self)
    }
}

impl Copied for BoundLit {
    fn copy(&self, _alloc: Global) -> Result<BoundLit, NoMemory> {
        Ok(*self)
    }
}

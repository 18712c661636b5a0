ghost use Rattle.std.specs.Prelude.{◌≡◌, ◌≤◌, length};

use kv_base::Sequence;
use kv_clause::{Block, Template};
use once_cell::race::{Note, OnceBox};
use std::alloc::Global;

/// Numbers of blocks, which count from 0.
pub type Indices = Sequence<u32>;

/// A template, and a row of cells for its blocks.
#[derive(Drop)]
pub struct Unwinding {
    pub(crate) template: Template,
    pub(crate) cells: Vec<OnceBox<Block>>,
    pub(crate) alloc: Global,
    ghost few: { length cells.items ≤ 256 },
}

/// What a seat knows of one block: what it saw in the cell, whether it has met the block, and its own block where another
/// one stands in the cell.
#[derive(Drop)]
pub struct Place {
    pub(crate) note: Note<Block>,
    pub(crate) met: bool,
    pub(crate) own: Option<Block>,
}

/// By what one thread reads an unwinding.
#[derive(Drop)]
pub struct UnwindSeat {
    pub(crate) places: Vec<Place>,
    pub(crate) known: Indices,
    pub(crate) built: u32,
}

impl UnwindSeat {
    /// The blocks that the seat knows, in the order in which it met them.
    pub fn known(&self) -> &Indices
        ensures { result.now ≡ self.now.known }
    {
        &self.known
    }

    /// How many blocks the seat built.
    pub fn built(&self) -> u32
        ensures { result ≡ self.now.built }
    {
        self.built
    }
}

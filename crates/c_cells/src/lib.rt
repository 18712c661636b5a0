//! The types of the cells of objects, in order, computed as `c_kinds` defines them.
#![tactic(auto)]

mod begins;
mod cells;
mod copies;
mod elements;

pub use begins::begins_with;
pub use cells::{CellTypes, MAX_NESTING, cell_types};

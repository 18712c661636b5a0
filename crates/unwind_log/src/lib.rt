//! One unwinding of a template that several threads read: a row of cells, each set once, with one block each.
//!
//! A thread reads by a seat, which compares each block with the template when it meets it for the first time, and keeps
//! its own where another stands in the cell. No call waits.
#![tactic(auto)]

mod blocks;
mod cells;
mod same;
mod unwinding;

pub use blocks::SeatBlocks;
pub use cells::{Indices, UnwindSeat, Unwinding};

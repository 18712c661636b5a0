//! Straight programs as trees of C: one function `main` of declarations, assignments and assertions over `int` objects.
#![tactic(auto)]

mod items;
mod names;
mod program;
mod sums;

pub use program::straight;

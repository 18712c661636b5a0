//! Terms folded: constants are computed, and neutral and absorbing operands are left out.
#![tactic(auto)]

mod computed;
mod folding;
mod operands;
mod picks;
mod rules;
mod simpler;

pub use folding::{add_folded, fold};
pub use kv_base::NoMemory;

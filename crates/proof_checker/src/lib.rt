//! Whether clauses follow one after another by unit propagation: exactly.
//!
//! A list of clauses that a search learnt shows by itself that no assignment meets the clauses that it began with,
//! where each follows by unit propagation from those and the ones before, and the last is empty. The checker shares no
//! step of the search. Watched literals find a conflict fast; only where they find none is each clause looked at.
#![tactic(auto)]

mod checker;
pub mod laws;
mod parts;
mod refute;
mod scan;
mod tiers;
mod verdict;

pub use checker::Checker;
pub use verdict::{Checked, check};

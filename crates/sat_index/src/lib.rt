//! An index of the clauses that a search has: under one literal of each clause its number and a signature, so that a
//! clause is found again which a new one contains.
//!
//! A search learns a clause only if no earlier one stands in it: it asks `earlier`.
#![tactic(auto)]

mod bucket;
mod index;
mod newness;
mod record;
mod signature;

pub use bucket::Bucket;
pub use index::{Index, Occurrence};
pub use newness::earlier;
pub use record::record_clause;

//! Gates as clauses: an assignment meets them exactly where it gives each variable the truth of its gate.
#![tactic(auto)]

mod clauses;
mod gates;

pub use gates::{gate_clauses, push_copies};

//! Literals, clauses and their truth, logs, unit propagation, and spent budgets.
#![tactic(auto)]

mod below;
pub mod laws;
mod literal;
mod truth;

pub use below::{are_below, clauses_are_below};
pub use literal::{Clause, Clauses, Cnf, Lit, Lits, Log};
pub use truth::{Assignment, holds, is_true};

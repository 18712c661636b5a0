//! Gates in a table in which equal gates are shared, and what value each of them has.
//!
//! A literal of the table is a `sat_clause::Lit` whose variable is the place of a gate. Contracts speak of any truths
//! of the variables that agree with the table as the call leaves it, so no value moves from table to table.
#![tactic(auto)]

mod gate;
mod table;

pub use gate::Gate;
pub use table::Gates;

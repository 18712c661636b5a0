//! Terms over words: operations on numbers of a width and a signedness, in a table that shares equal
//! terms.
#![tactic(auto)]

mod table;
mod term;

pub use kv_base::NoMemory;
pub use table::Terms;
pub use term::{BinaryOp, Shape, Term, TermId, TermKind, UnaryOp};

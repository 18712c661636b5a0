//! The grammar of C: what a token is for it, and the reader of texts as a function.
#![tactic(auto)]

mod kinds;

pub use kinds::{ASSIGNMENT, CAST, CONDITIONAL, POSTFIX, Suffix, UNARY, level, suffix_of};

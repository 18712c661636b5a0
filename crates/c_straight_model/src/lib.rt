//! Straight programs, and what one execution of them does. They stand in for all programs until the whole machine of
//! `c_model` runs.
#![tactic(auto)]

mod copied;
mod laws;
mod program;

pub use c_rules::CheckKind;
pub use c_tokens::{DataModel, Token, TokenKind, Tokens};
pub use laws::{always_ends, ended_is_safe, ends_alike, ends_with_nothing_left, has_one_end};
pub use program::{Addend, Addends, BlockItem, BlockItems, Operand, Program, Relation, Sign, Sum};

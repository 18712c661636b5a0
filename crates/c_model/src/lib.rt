//! The machine that gives C programs their meaning: its values, and its definitions in specs/.
#![tactic(auto)]

mod laws;
mod values;

pub use c_rules::{CheckKind, Checks, Goal, Names, Program, Types};
pub use c_tokens::{DataModel, Token, TokenKind, Tokens};
pub use c_tree::Tree;
pub use laws::{
    arrivals_are_bare, block_has_one_end, ends_alike, goals_agree, has_one_end,
    machine_is_as_worked, no_block_is_endless,
};
pub use values::{Cells, Object, Outcome, Scalar};

//! Tokens, data models and limits, and which tokens a text has: the definitions of reading.
#![tactic(auto)]

mod data_model;
mod left_out;
mod limits;
mod token;

pub use data_model::DataModel;
pub use left_out::left_out_text;
pub use limits::{MAX_BYTES, MAX_DEPTH, MAX_NAME_BYTES, MAX_NESTING, MAX_TOKENS};
pub use token::{Token, TokenKind, Tokens};

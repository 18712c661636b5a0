//! What the bytes of a source say: the straight program that they spell, or why they are refused.
#![tactic(auto)]

mod lines;
mod reading;
mod refusal;
mod words;

pub use c_lexer::MAX_BYTES;
pub use reading::{Unread, one_program, read_source, spells_or_refuses};
pub use refusal::Refusal;

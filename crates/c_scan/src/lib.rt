//! What a piece of a C text is: words, numbers, characters, strings and punctuators, and the constants that they spell
//! (C11 6.4).
#![tactic(auto)]

mod bytes;
mod constants;
mod pieces;
mod words;

pub use bytes::{Run, begins_digit, begins_name, begins_number, is_blank, run_size};
pub use constants::{Least, Number, Suffix, char_value, number_of, suffix_of};
pub use pieces::{Piece, Shape, first_piece};
pub use words::{Row, Vocabulary, Words, find};

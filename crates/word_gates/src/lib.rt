//! Arithmetic on words of literals: circuits over a table of gates, each equal to the typed numbers' operation. Sums,
//! comparisons and choices stand in `word_sums`, the bitwise operations in `word_bits`, products in `word_products`, and
//! quotients, shifts and other widths here.
//!
//! A word is a list of literals, lowest bit first; two operands have one length, from 1 to 128, but for the distance of a
//! shift, which may have any. Its number is read with or without a sign, as each call is told. Quotients by 0 and shifts
//! by the width and more are what the values of terms are. A call that answers `NoMemory` may have added gates, which change no value.
#![tactic(auto)]

mod distances;
mod quotients;
mod resizes;
mod shifts;
mod signs;

pub use quotients::div_rem;
pub use resizes::{negate, resize};
pub use shifts::{shift_left, shift_right};
pub use word_bits::{and, constant, not, or, xor};
pub use word_products::mul;
pub use word_sums::{Word, WordNum, add, equal, less, select, sub};

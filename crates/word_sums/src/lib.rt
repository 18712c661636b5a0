//! Sums, comparisons and choices of words of literals: circuits over a table of gates, each equal to the typed numbers'
//! operation, and the parts that products, quotients and shifts are made of.
//!
//! A word is a list of literals, lowest bit first; two operands have one length, from 1 to 128. Its number is read with
//! or without a sign, as each call is told. A call that answers `NoMemory` may have added gates, which change no value.
#![tactic(auto)]

mod bits;
mod compares;
mod parts;
mod sums;
mod word;

pub use bits::{Digit, add_bits, or};
pub use compares::{equal, less, select};
pub use parts::{above, any};
pub use sums::{Sum, add, add_carried, complements, sub};
pub use word::{Word, WordNum};

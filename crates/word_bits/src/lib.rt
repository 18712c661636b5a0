//! Constant words, and the bitwise operations on words of literals: circuits over a table of gates, each equal to the typed numbers'
//! operation.
//!
//! A word is a list of literals, lowest bit first; two operands have one length. Its number is read with or without a
//! sign: each result is right for both. A call that answers `NoMemory` may have added gates, which change no value.
#![tactic(auto)]

mod bitwise;
mod constants;

pub use bitwise::{and, not, or, xor};
pub use constants::constant;

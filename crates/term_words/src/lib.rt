//! The terms of a table as words of gates: each term once, in its own width and with its own sign.
//!
//! A variable has the number of its word without a sign; one that has no word, or an empty one, is 0. A call that answers
//! `NoMemory` may have added gates, which change no value.
#![tactic(auto)]

mod kinds;
mod leaves;
mod operations;
mod tables;
mod truths;

use kv_base::Sequence;
pub use tables::words;
use word_gates::Word;

/// Words in the order of terms, or of variables.
pub type Words = Sequence<Word>;

//! Circuits of words, evaluated on numbers.
#![tactic(auto)]

mod circuit;
#[cfg(test)]
mod clauses;
#[cfg(test)]
mod gates;
mod lanes;
#[cfg(test)]
mod terms;
#[cfg(test)]
mod tests;

pub use circuit::{BitOperation, Circuit, Operation};
pub use lanes::{LANES, evaluated, gate_count, inputs, is_set, word_in_lane};

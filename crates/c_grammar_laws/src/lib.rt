//! The laws of the grammar: tokens spell one tree at most, and the reader reads exactly that tree.
#![tactic(auto)]

pub mod laws;

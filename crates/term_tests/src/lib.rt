//! Tests of terms: their tables, and what they are folded to.
#![tactic(auto)]

#[cfg(test)]
mod folds;
#[cfg(test)]
mod tables;

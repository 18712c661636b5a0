//! Tests of what threads share: the cancel word, and the unwinding.
#![tactic(auto)]

#[cfg(test)]
mod blocks;
#[cfg(test)]
mod words;

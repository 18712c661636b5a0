//! Questions put to the solvers, with answers that were found by other means.
#![tactic(auto)]

#[cfg(test)]
mod tests;

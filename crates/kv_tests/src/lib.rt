//! Tests of the foundations, and of templates, their blocks and queries.
#![tactic(auto)]

#[cfg(test)]
mod lists;
#[cfg(test)]
mod numbers;
#[cfg(test)]
mod ports;
#[cfg(test)]
mod templates;

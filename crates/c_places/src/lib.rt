//! Where the names of a list stand in it, looked up by their hash.
#![tactic(auto)]

mod places;

pub use places::Places;

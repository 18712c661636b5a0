//! Runs the C machine of `c_straight_model`, step by step.
#![tactic(auto)]

mod control;
mod machine;
mod run;
mod values;

pub use run::{RunEnd, replay};

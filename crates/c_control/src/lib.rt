//! The rules of selection, iteration and jumps (C11 6.8.4 to 6.8.6). They take what reads the parts as parameters, so that
//! each rule is proved by itself.
#![tactic(auto)]

mod chains;
mod control;
mod jumps;
mod loops;
mod switches;

pub use control::Control;
pub use jumps::{break_statement, continue_statement};

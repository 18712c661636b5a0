//! The rules of specifiers (C11 6.7), and of what stands in the brackets of structs (6.7.2.1) and enumerations (6.7.2.2).
//! They take what reads the parts as parameters, so that each rule is proved by itself.
#![tactic(auto)]

mod constants;
mod members;
mod specifiers;

pub use constants::Constants;
pub use members::Members;
pub use specifiers::Specifiers;

//! How deep the tokens of a text are nested, how deep its tree is, and which tokens the accepted C leaves out.
#![tactic(auto)]

mod depth;
mod nesting;

pub use depth::fits;
pub use nesting::{first_left_out, first_too_deep};

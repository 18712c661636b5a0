//! The parser of C texts.
#![tactic(auto)]

mod externals;
mod grammar;
mod parser;
mod statements;

pub use c_nesting::{first_left_out, first_too_deep};
pub use c_tokens::{MAX_DEPTH, MAX_NESTING};
pub use parser::{ParseFault, parse};

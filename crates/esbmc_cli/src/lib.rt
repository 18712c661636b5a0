//! The program without its edge: from the words of the command line to a status and the bytes written.
#![tactic(auto)]

mod decide;
mod outcome;
mod print;
mod source;
mod texts;
mod top;

pub use outcome::Outcome;
pub use top::run_alone;

//! One word by which several threads stop: 0, or 1 plus the number of the seat that decided.
//!
//! Each thread has a seat, which holds numbers and remembers what it has seen and done. No call waits.
#![tactic(auto)]

mod cancel;
mod poll;
mod view;
mod word;

pub use poll::WordPoll;
pub use word::{Cancel, Decided, StopSeat};

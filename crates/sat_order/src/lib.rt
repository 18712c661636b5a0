//! The order in which a search chooses its variables, and the lengths of its runs.
//!
//! An order is a set of variables, of which `take` hands out one that stood in conflicts lately. Which one that is, no
//! contract says.
#![tactic(auto)]

mod heap;
mod runs;
mod variables;

pub use runs::luby;
pub use variables::Order;

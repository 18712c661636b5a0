//! A solver that grows: clauses are added, and questions asked about them under assumed literals, each with a budget of
//! clauses to learn and a poll that may stop it.
//!
//! What it learns is kept, in the order in which it was learnt. Each learnt clause follows by unit propagation from the
//! clauses before it and includes none of them, so a search without a budget ends, and no log is padded.
#![tactic(auto)]

mod assignment;
mod find;
mod poll;
mod setup;
mod solver;

pub use poll::{NeverPoll, Poll, PollAt};
pub use solver::{Answer, Solver};

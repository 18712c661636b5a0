//! The template of one block of a program, its blocks, and the queries over them.
//!
//! Lists are `kv_base::Sequence`s. A call that takes memory is given the allocator first, and answers
//! `NoMemory` where there is none.
#![tactic(auto)]

mod asked;
mod below;
mod block;
mod blocks;
mod bound;
mod fixed;
pub mod laws;
mod plain;
mod query;
mod template;

pub use asked::{asked_literals, bounds_of_block, in_block};
pub use below::{bounds_are_below, sites_are_below};
pub use block::{Block, shift};
pub use blocks::Blocks;
pub use bound::{Bound, BoundLit, BoundLits, Bounds};
pub use fixed::{fixed_clauses, query_clauses, vars_of_blocks};
pub use plain::PlainBlocks;
pub use query::Query;
pub use sat_clause::{
    Assignment, Clause, Clauses, Cnf, Lit, Lits, Log, are_below, clauses_are_below, holds, is_true,
};
pub use template::{Site, Sites, Template};

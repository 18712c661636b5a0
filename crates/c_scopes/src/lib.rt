//! What is known at a place in a text: the declarations in scope, by the hash of their names, and what goes with them.
#![tactic(auto)]

mod entries;
mod first_places;
mod keys;
mod meanings;
mod name_set;
mod name_table;
mod number_set;
mod scopes;
mod state;

pub use name_set::NameSet;
pub use number_set::NumberSet;
pub use scopes::{BlockEntries, Scopes};
pub use state::{Block, State, function_declared};

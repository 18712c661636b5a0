//! What a search for assignments and a check of its log share: clauses in one array, the trail of literals set true,
//! and unit propagation by two watched literals of each clause.
//!
//! No proof rests on the watches. What propagation sets true is true by a clause that was looked at, and so is a clause
//! that it reports false; whoever has to know that nothing is left to propagate looks at each clause.
#![tactic(auto)]

mod copies;
mod literal;
mod look;
mod propagation;
mod room;
mod store;
mod trail;
mod watch;

pub use copies::Look;
pub use literal::{complement, narrow};
pub use look::{Seen, look_at, open_pair};
pub use propagation::{imply, propagate};
pub use room::room_for;
pub use store::{Store, Stored};
pub use trail::{Reason, SetLiteral, Trail};
pub use watch::Watches;

//! One turn of a search for an assignment: propagation, learning from a false clause, a step back, and the next choice.
//!
//! No proof rests on which literal is chosen, on the watches, or on when a search begins anew. Each clause that is
//! learnt is new: an index seeks an earlier clause inside it, and where there is one, that is the reason for the
//! step instead. So a search ends.
#![tactic(auto)]

mod analysis;
mod assumptions;
mod choice;
mod cuts;
mod deciding;
mod forgetting;
mod guide;
mod implied;
mod levels;
mod mark;
mod once;
mod parts;
mod repair;
mod restarting;
mod shorten;
mod turn;

pub use cuts::rewind;
pub use guide::Guide;
pub use parts::Parts;
pub use turn::{Turn, turn_once};

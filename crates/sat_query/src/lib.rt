//! Questions about clauses, with answers that carry what shows them: an assignment, or a log of clauses that follow one
//! after another.
#![tactic(auto)]

mod asking;
mod grown;
mod kept;
mod kept_blocks;

pub use asking::{Asked, ask};
pub use kept::{Kept, KeptAnswer};
pub use kept_blocks::KeptBlocks;

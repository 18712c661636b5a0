//! Laws of head configurations: what each arrival of the machine at a loop leaves open.
#![tactic(auto)]

mod laws;

pub use laws::{arrivals_are_heads, store_stays_laid_out, values_keep_their_types};

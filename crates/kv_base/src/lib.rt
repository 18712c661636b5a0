//! What every crate stands on: being out of memory, lists and stacks that contracts see as values, and copies.
#![tactic(auto)]

mod copied;
mod exact;
mod sequence;
mod stack;

pub use copied::Copied;
pub use exact::Exact;
pub use sequence::Sequence;
pub use stack::Stack;
pub use std::alloc::AllocError as NoMemory;

/// A list of bytes.
pub type Bytes = Sequence<u8>;

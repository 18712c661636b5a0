//! What an operator makes of its operands.

use crate::Typed;

/// An expression with its type, or why it has none.
#[derive(Debug, Drop)]
pub enum Answer {
    /// The expression has a type.
    Gives { typed: Typed },
    /// This rule leaves it without a type, and is broken at this token.
    Breaks { rule: u8, at: usize },
    /// A part of it has no type.
    Nothing,
}

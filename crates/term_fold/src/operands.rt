ghost use Rattle.std.specs.Prelude.{◌≡◌, ◌↔◌, IsTrue, Some};

use term_core::Shape;

/// What is known of two operands: their shapes, their numbers where they are constants, and whether
/// they are one term.
#[derive(Clone, Copy)]
pub(crate) struct Operands {
    pub shape: Shape,
    pub other: Shape,
    pub left: Option<i128>,
    pub right: Option<i128>,
    pub same: bool,
}

/// What an operation on two operands comes to.
#[derive(Clone, Copy)]
pub(crate) enum Pick {
    /// The left operand.
    Left,
    /// The right operand.
    Right,
    /// This number.
    Number(i128),
    /// Nothing simpler.
    Neither,
}

/// Whether an operand is known to be this number.
pub(crate) fn is_number(known: Option<i128>, number: i128) -> bool
    ensures { IsTrue result ↔ (known ≡ Some number) }
{
    match known {
        Some(found) => found == number,
        None => false,
    }
}

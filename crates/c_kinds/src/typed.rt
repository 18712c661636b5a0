//! What is known of an expression that has a type.

use crate::CType;

/// What an expression is as a constant (C11 6.6).
#[derive(Clone, Copy, Debug, Drop, PartialEq, Eq)]
pub enum Fixed {
    /// No constant by its form.
    Varies,
    /// An integer constant expression without a value: it divides by 0, shifts out of range or overflows.
    NoValue,
    /// An integer constant expression (6.6p6).
    Number { value: i128 },
    /// A null pointer.
    Null,
    /// The address of a cell of a static object, or the place there (6.6p9).
    At { object: usize, cell: u64 },
    /// An address constant whose evaluation breaks a check.
    Breaks,
}

/// An expression that has a type.
#[derive(Debug, Drop)]
pub struct Typed {
    pub ctype: CType,
    /// Whether it is an lvalue (6.3.2.1p1).
    pub is_place: bool,
    /// Whether it is a null pointer constant (6.3.2.3p3).
    pub is_null: bool,
    pub fixed: Fixed,
    /// What `&` of it is as a constant.
    pub address: Fixed,
    /// The token that names it: the last name of a name, a member, a subscript or a step, and else its operator.
    pub named_at: usize,
    /// The last token of it that matters: the structs in its type are complete where they end before.
    pub ends_at: usize,
}

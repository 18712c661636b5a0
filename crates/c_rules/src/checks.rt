//! What is checked.

use c_tokens::DataModel;

/// What an execution may break: an assertion, or one of the implicit checks.
#[derive(Clone, Copy, Debug, Drop, PartialEq, Eq)]
pub enum CheckKind {
    /// `assert(e)` with e equal to 0 (C11 7.2.1.1).
    Assertion,
    /// A subscript outside its array (6.5.6p8).
    ArrayBounds,
    /// A null, wild or unfitting pointer that is followed (6.5.3.2p4).
    Dereference,
    /// A pointer moved outside its object (6.5.6p8).
    PointerArithmetic,
    /// A division or remainder by 0 (6.5.5p5).
    Division,
    /// A shift by a negative distance, or by the width or more (6.5.7p3).
    Shift,
    /// Arithmetic whose exact result doesn't fit its type (6.5p5).
    Overflow,
}

/// Which breaks count.
#[derive(Clone, Copy, Debug, Drop, PartialEq, Eq)]
pub enum Goal {
    /// Those of every check.
    All,
    /// Those of one check at one line.
    Only { check: CheckKind, line: u32 },
}

/// What is checked, and in which data model.
#[derive(Clone, Copy, Debug, Drop, PartialEq, Eq)]
pub struct Checks {
    /// Whether signed arithmetic must fit its type.
    pub signed_overflow: bool,
    /// Whether unsigned arithmetic must.
    pub unsigned_overflow: bool,
    pub model: DataModel,
    pub goal: Goal,
}

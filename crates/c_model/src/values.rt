//! What objects hold, and what operators give.

use c_rules::CheckKind;
use kv_base::Sequence;

/// What one cell holds: a number of its type's range, or a pointer (C11 6.2.6).
#[derive(Clone, Copy, Debug, Drop, PartialEq, Eq)]
pub enum Scalar {
    Number { value: i128 },
    /// The null pointer (6.3.2.3p3).
    Null,
    /// A pointer that points to no living object (6.2.4p2).
    Wild,
    /// A pointer to this cell of an object, or one past its last cell (6.5.6p8).
    Inside { object: usize, offset: usize },
}

/// What an expression gives: one cell of a scalar, each cell of a struct, none of void.
pub type Cells = Sequence<Scalar>;

/// A living object: the number of its declaration, and its cells (3.15, 6.2.4).
#[derive(Debug, Drop)]
pub struct Object {
    pub number: usize,
    pub cells: Cells,
}

/// What an operator gives, or the check that isn't met.
#[derive(Clone, Copy, Debug, Drop, PartialEq, Eq)]
pub enum Outcome {
    Gives { value: Scalar },
    Unmet { check: CheckKind },
}

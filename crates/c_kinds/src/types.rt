//! Types (C11 6.2.5).

use kv_base::{Bytes, Sequence};
use kv_num::IntType;

/// A step from a type to the one that it is derived from (6.2.5p20).
#[derive(Clone, Copy, Debug, Drop, PartialEq, Eq)]
pub enum Derivation {
    /// A pointer, which is itself `const` or not.
    Pointer { is_const: bool },
    Array { length: u64 },
}

/// The type from which the others are derived.
#[derive(Clone, Copy, Debug, Drop, PartialEq, Eq)]
pub enum Base {
    Void,
    Integer { kind: IntType },
    /// A struct, by its number in the order of declaration.
    Struct { number: usize },
    /// A function, by the number of its signature.
    Function { number: usize },
}

/// The derivations of a type, the outermost first.
pub type Derivations = Sequence<Derivation>;

/// A type. `const int *p[3]` has the derivations array of 3 and pointer, and the base `int`, which is `const`.
#[derive(Debug, Drop)]
pub struct CType {
    pub derived: Derivations,
    pub base: Base,
    /// Whether the base is `const` (6.7.3).
    pub is_const: bool,
}

/// The outermost part of a type.
#[derive(Clone, Copy, Debug, Drop, PartialEq, Eq)]
pub enum Shape {
    Void,
    Integer { kind: IntType },
    Pointer,
    Array { length: u64 },
    Struct { number: usize },
    Function { number: usize },
}

/// The type of a cell: objects are lists of scalar cells.
#[derive(Debug, Drop)]
pub enum CellType {
    Integer { kind: IntType },
    Pointer { pointee: CType },
}

/// The types of a function's parameters.
pub type ParameterTypes = Sequence<CType>;

/// The type of a function (6.7.6.3). Equal ones have one number.
#[derive(Debug, Drop)]
pub struct Signature {
    pub result: CType,
    pub parameters: ParameterTypes,
    pub is_variadic: bool,
}

/// The signatures of a text, by number.
pub type Signatures = Sequence<Signature>;

/// A member of a struct (6.7.2.1).
#[derive(Debug, Drop)]
pub struct Member {
    pub name: Bytes,
    /// Its type, unless its declaration breaks a rule by which it has none.
    pub ctype: Option<CType>,
    /// How many cells stand before it.
    pub cell: u64,
}

/// The members of a struct, in order.
pub type Members = Sequence<Member>;

/// A struct (6.7.2.1).
#[derive(Debug, Drop)]
pub struct Struct {
    pub members: Members,
    /// The last name, constant or operator between its braces: it is complete after that token (6.7.2.1p8).
    pub completed_at: Option<usize>,
    /// How many cells its members have.
    pub cells: u64,
    /// Whether a member is `const`, also a member of a member or of an element (6.3.2.1p1).
    pub has_const: bool,
}

/// The structs of a text, by number.
pub type Structs = Sequence<Struct>;

//! Straight programs: one function `main` of declarations, assignments and assertions over `int` objects.

use kv_base::{Bytes, Sequence};

/// An operand of a sum (C11 6.5.1).
#[derive(Debug, Drop)]
pub enum Operand {
    /// What an object holds.
    Name { name: Bytes },
    /// A decimal constant, at most 2,147,483,647 (6.4.4.1).
    Number { value: u32 },
}

/// An additive operator (6.5.6).
#[derive(Clone, Copy, Debug, PartialEq, Eq)]
pub enum Sign {
    Plus,
    Minus,
}

/// An operator with its right operand.
#[derive(Debug, Drop)]
pub struct Addend {
    pub sign: Sign,
    pub operand: Operand,
}

/// The operators of a sum with their right operands, from left to right.
pub type Addends = Sequence<Addend>;

/// An additive expression; it groups to the left (6.5.6).
#[derive(Debug, Drop)]
pub struct Sum {
    pub first: Operand,
    pub rest: Addends,
}

/// An equality operator (6.5.9).
#[derive(Clone, Copy, Debug, PartialEq, Eq)]
pub enum Relation {
    Equal,
    Unequal,
}

/// An item of the body of `main` (6.8.2). Its line is that of its first token, counted from 1.
#[derive(Debug, Drop)]
pub enum BlockItem {
    /// `int name = value;`
    Declare {
        name: Bytes,
        value: Sum,
        line: u32,
    },
    /// `name = value;`
    Assign {
        name: Bytes,
        value: Sum,
        line: u32,
    },
    /// `assert(left == right);` or `assert(left != right);`
    Assert {
        relation: Relation,
        left: Sum,
        right: Sum,
        line: u32,
    },
}

/// The items of a body, in their order.
pub type BlockItems = Sequence<BlockItem>;

/// A straight program.
#[derive(Debug, Drop)]
pub struct Program {
    pub items: BlockItems,
}

//! Programs.

use crate::{Checks, Names};
use c_kinds::CType;
use c_tree::Tree;
use kv_base::Sequence;

/// The types of the expressions, by their tokens' numbers, and the values of `case` labels, converted, by theirs.
#[derive(Debug, Drop)]
pub struct Types {
    pub expressions: Sequence<Option<CType>>,
    pub cases: Sequence<Option<i128>>,
}

/// A program: its tree, what the names in it stand for, the types of its expressions, and what is checked.
#[derive(Debug, Drop)]
pub struct Program {
    pub tree: Tree,
    pub names: Names,
    pub types: Types,
    pub checks: Checks,
}

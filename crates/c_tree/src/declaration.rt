//! Declarations and whole texts.
//!
//! `at` is the number of the node's own token, counted from 0.

use crate::{BlockItem, Declarator, Expression, Specifier};
use kv_base::Sequence;
use sqlite_items::Items;

/// An initialiser (C11 6.7.9).
#[derive(Debug, Drop)]
pub enum Initialiser {
    /// An expression, at its first token: where it begins with a bracket, at that.
    Value {
        value: Expression,
        at: usize,
    },
    /// `{ parts }`, at the `{`.
    Braces {
        parts: Items<Initialiser>,
        at: usize,
    },
}

/// A declarator of a declaration (6.7).
#[derive(Debug, Drop)]
pub enum Declared {
    Plain {
        declarator: Declarator,
    },
    /// With an initialiser, at the `=`.
    Initialised {
        declarator: Declarator,
        initialiser: Initialiser,
        at: usize,
    },
}

/// What a declaration declares, in order.
pub type DeclaredNames = Sequence<Declared>;

/// A declaration (6.7), at its `;`.
#[derive(Debug, Drop)]
pub struct Declaration {
    /// One or more.
    pub specifiers: Items<Specifier>,
    pub names: DeclaredNames,
    pub at: usize,
}

/// An external declaration (6.9).
#[derive(Debug, Drop)]
pub enum External {
    /// `;`
    Empty {
        at: usize,
    },
    Declared {
        declaration: Declaration,
    },
    /// A function definition, at its `{` (6.9.1).
    Defined {
        specifiers: Items<Specifier>,
        declarator: Declarator,
        body: Items<BlockItem>,
        at: usize,
    },
}

/// The external declarations of a text, in order.
pub type Externals = Sequence<External>;

/// The line of each token of a text, in order, counted from 1.
pub type TokenLines = Sequence<u32>;

/// The tree of a text: a translation unit (6.9).
#[derive(Debug, Drop)]
pub struct Tree {
    pub externals: Externals,
    pub lines: TokenLines,
}

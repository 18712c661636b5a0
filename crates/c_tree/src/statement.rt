//! Statements.
//!
//! `at` is the number of the node's own token, counted from 0: its first word, its `{` or its `;`.

use crate::{Declaration, Expression};
use kv_base::Bytes;
use sqlite_items::{Boxed, Items};

/// A statement (C11 6.8).
#[cycle(statement)]
#[derive(Debug, Drop)]
pub enum Statement {
    /// `{ items }` (6.8.2).
    Block {
        items: Items<BlockItem>,
        at: usize,
    },
    /// `;`, or what stands after a label before a `}`, at that `;` or `}` (6.8.3).
    Empty {
        at: usize,
    },
    /// `value;`, at the `;` (6.8.3).
    Value {
        value: Expression,
        at: usize,
    },
    /// `name: body` (6.8.1).
    Label {
        name: Bytes,
        body: Boxed<Statement>,
        at: usize,
    },
    /// `case value: body` (6.8.1).
    Case {
        value: Expression,
        body: Boxed<Statement>,
        at: usize,
    },
    /// `default: body` (6.8.1).
    Default {
        body: Boxed<Statement>,
        at: usize,
    },
    /// `if (test) body else if (test) body ..` without a last `else` (6.8.4.1).
    If {
        branches: Items<Branch>,
    },
    /// The same with `else otherwise` at its end, which is no `if` (6.8.4.1).
    IfElse {
        branches: Items<Branch>,
        otherwise: Boxed<Statement>,
    },
    /// `switch (value) body` (6.8.4.2).
    Switch {
        value: Expression,
        body: Boxed<Statement>,
        at: usize,
    },
    /// `while (test) body` (6.8.5.1).
    While {
        test: Expression,
        body: Boxed<Statement>,
        at: usize,
    },
    /// `do body while (test);` (6.8.5.2).
    Do {
        body: Boxed<Statement>,
        test: Expression,
        at: usize,
    },
    /// `for (start test; step) body` (6.8.5.3).
    For {
        start: ForStart,
        test: Option<Expression>,
        step: Option<Expression>,
        body: Boxed<Statement>,
        at: usize,
    },
    /// `break;` (6.8.6.3).
    Break {
        at: usize,
    },
    /// `continue;` (6.8.6.2).
    Continue {
        at: usize,
    },
    /// `return;` or `return value;` (6.8.6.4).
    Return {
        value: Option<Expression>,
        at: usize,
    },
}

/// `if (test) body`, at the `if` (6.8.4.1).
#[cycle(statement)]
#[derive(Debug, Drop)]
pub struct Branch {
    pub test: Expression,
    pub body: Statement,
    pub at: usize,
}

/// An item of a block (6.8.2).
#[cycle(statement)]
#[derive(Debug, Drop)]
pub enum BlockItem {
    Declared { declaration: Declaration },
    Run { statement: Statement },
}

/// The first part of a `for` (6.8.5.3).
#[derive(Debug, Drop)]
pub enum ForStart {
    /// `;`
    Nothing,
    /// `value;`
    Value { value: Expression },
    /// A declaration.
    Declared { declaration: Declaration },
}

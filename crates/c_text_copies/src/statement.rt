//! Copies of statements.

ghost use Rattle.std.specs.Prelude.{◌≡◌, IfOk};

use crate::declaration::copy_declaration;
use c_tree::{BlockItem, Branch, Expression, ForStart, Statement};
use c_tree_copies::copy_expression;
use kv_base::{Bytes, Copied, NoMemory};
use sqlite_items::{Boxed, Items};
use std::alloc::Global;

/// An equal first part of a `for`.
pub fn copy_for_start(alloc: Global, x: &ForStart) -> Result<ForStart, NoMemory>
    ensures { IfOk result (λ made. made ≡ x.now) }
{
    match x {
        ForStart::Nothing => Ok(ForStart::Nothing),
        ForStart::Value { value } => Ok(ForStart::Value {
            value: copy_expression(alloc, value)?,
        }),
        ForStart::Declared { declaration } => Ok(ForStart::Declared {
            declaration: copy_declaration(alloc, declaration)?,
        }),
    }
}

/// An equal expression, if there is one.
fn copy_optional(alloc: Global, x: &Option<Expression>) -> Result<Option<Expression>, NoMemory>
    ensures { IfOk result (λ made. made ≡ x.now) }
{
    match x {
        Some(value) => Ok(Some(copy_expression(alloc, value)?)),
        None => Ok(None),
    }
}

/// The label, before this body.
fn label_of(
    alloc: Global,
    name: &Bytes,
    body: Boxed<Statement>,
    at: usize,
) -> Result<Statement, NoMemory>
    ensures { IfOk result (λ made. made ≡ Statement.Label name.now body at) }
{
    let name = name.copy(alloc)?;
    Ok(Statement::Label { name, body, at })
}

/// The `case`, before this body.
fn case_of(
    alloc: Global,
    value: &Expression,
    body: Boxed<Statement>,
    at: usize,
) -> Result<Statement, NoMemory>
    ensures { IfOk result (λ made. made ≡ Statement.Case value.now body at) }
{
    let value = copy_expression(alloc, value)?;
    Ok(Statement::Case { value, body, at })
}

/// The `switch` of this body.
fn switch_of(
    alloc: Global,
    value: &Expression,
    body: Boxed<Statement>,
    at: usize,
) -> Result<Statement, NoMemory>
    ensures { IfOk result (λ made. made ≡ Statement.Switch value.now body at) }
{
    let value = copy_expression(alloc, value)?;
    Ok(Statement::Switch { value, body, at })
}

/// The `while` of this body.
fn while_of(
    alloc: Global,
    test: &Expression,
    body: Boxed<Statement>,
    at: usize,
) -> Result<Statement, NoMemory>
    ensures { IfOk result (λ made. made ≡ Statement.While test.now body at) }
{
    let test = copy_expression(alloc, test)?;
    Ok(Statement::While { test, body, at })
}

/// The `do` of this body.
fn do_of(
    alloc: Global,
    body: Boxed<Statement>,
    test: &Expression,
    at: usize,
) -> Result<Statement, NoMemory>
    ensures { IfOk result (λ made. made ≡ Statement.Do body test.now at) }
{
    let test = copy_expression(alloc, test)?;
    Ok(Statement::Do { body, test, at })
}

/// The `for` of this body.
fn for_of(
    alloc: Global,
    start: &ForStart,
    test: &Option<Expression>,
    step: &Option<Expression>,
    body: Boxed<Statement>,
    at: usize,
) -> Result<Statement, NoMemory>
    ensures { IfOk result (λ made. made ≡ Statement.For start.now test.now step.now body at) }
{
    let start = copy_for_start(alloc, start)?;
    let test = copy_optional(alloc, test)?;
    let step = copy_optional(alloc, step)?;
    Ok(Statement::For {
        start,
        test,
        step,
        body,
        at,
    })
}

/// An equal statement, or out of memory.
#[cycle(statements)]
pub fn copy_statement(alloc: Global, x: &Statement) -> Result<Statement, NoMemory>
    ensures { IfOk result (λ made. made ≡ x.now) }
{
    match x {
        Statement::Block { items, at } => Ok(Statement::Block {
            items: copy_block_items(alloc, items)?,
            at: *at,
        }),
        Statement::Empty { at } => Ok(Statement::Empty { at: *at }),
        Statement::Value { value, at } => Ok(Statement::Value {
            value: copy_expression(alloc, value)?,
            at: *at,
        }),
        Statement::Label { name, body, at } => {
            let body = copy_boxed(alloc, body)?;
            label_of(alloc, name, body, *at)
        }
        Statement::Case { value, body, at } => {
            let body = copy_boxed(alloc, body)?;
            case_of(alloc, value, body, *at)
        }
        Statement::Default { body, at } => Ok(Statement::Default {
            body: copy_boxed(alloc, body)?,
            at: *at,
        }),
        Statement::If { branches } => Ok(Statement::If {
            branches: copy_branches(alloc, branches)?,
        }),
        Statement::IfElse {
            branches,
            otherwise,
        } => {
            let branches = copy_branches(alloc, branches)?;
            let otherwise = copy_boxed(alloc, otherwise)?;
            Ok(Statement::IfElse {
                branches,
                otherwise,
            })
        }
        Statement::Switch { value, body, at } => {
            let body = copy_boxed(alloc, body)?;
            switch_of(alloc, value, body, *at)
        }
        Statement::While { test, body, at } => {
            let body = copy_boxed(alloc, body)?;
            while_of(alloc, test, body, *at)
        }
        Statement::Do { body, test, at } => {
            let body = copy_boxed(alloc, body)?;
            do_of(alloc, body, test, *at)
        }
        Statement::For {
            start,
            test,
            step,
            body,
            at,
        } => {
            let body = copy_boxed(alloc, body)?;
            for_of(alloc, start, test, step, body, *at)
        }
        Statement::Break { at } => Ok(Statement::Break { at: *at }),
        Statement::Continue { at } => Ok(Statement::Continue { at: *at }),
        Statement::Return { value, at } => Ok(Statement::Return {
            value: copy_optional(alloc, value)?,
            at: *at,
        }),
    }
}

/// An equal body.
#[cycle(statements)]
fn copy_boxed(alloc: Global, x: &Boxed<Statement>) -> Result<Boxed<Statement>, NoMemory>
    ensures { IfOk result (λ made. made ≡ x.now) }
{
    Boxed::new(alloc, copy_statement(alloc, x.get())?)
}

/// An equal branch.
#[cycle(statements)]
pub fn copy_branch(alloc: Global, x: &Branch) -> Result<Branch, NoMemory>
    ensures { IfOk result (λ made. made ≡ x.now) }
{
    let test = copy_expression(alloc, &x.test)?;
    let body = copy_statement(alloc, &x.body)?;
    Ok(Branch {
        test,
        body,
        at: x.at,
    })
}

/// Equal branches.
#[cycle(statements)]
fn copy_branches(alloc: Global, items: &Items<Branch>) -> Result<Items<Branch>, NoMemory>
    ensures { IfOk result (λ made. made ≡ items.now) }
{
    let mut made = Items::new(alloc);
    for item in items.as_slice() {
        made.push(copy_branch(alloc, item)?)?;
    }
    Ok(made)
}

/// An equal item of a block.
#[cycle(statements)]
pub fn copy_block_item(alloc: Global, x: &BlockItem) -> Result<BlockItem, NoMemory>
    ensures { IfOk result (λ made. made ≡ x.now) }
{
    match x {
        BlockItem::Declared { declaration } => Ok(BlockItem::Declared {
            declaration: copy_declaration(alloc, declaration)?,
        }),
        BlockItem::Run { statement } => Ok(BlockItem::Run {
            statement: copy_statement(alloc, statement)?,
        }),
    }
}

/// Equal items of a block.
#[cycle(statements)]
pub fn copy_block_items(
    alloc: Global,
    items: &Items<BlockItem>,
) -> Result<Items<BlockItem>, NoMemory>
    ensures { IfOk result (λ made. made ≡ items.now) }
{
    let mut made = Items::new(alloc);
    for item in items.as_slice() {
        made.push(copy_block_item(alloc, item)?)?;
    }
    Ok(made)
}

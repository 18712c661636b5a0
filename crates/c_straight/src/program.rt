//! Straight programs (C11 6.9.1).

ghost use Rattle.std.specs.Prelude.{◌≡◌, Some, [], IfOk, IfSome, IfNone, length};
ghost use Rattle.c_straight_model.specs.declared.program.Program.{Program};
ghost use Rattle.c_straight.specs.Straight as spec;
ghost use Rattle.c_straight.specs.Straight.{IsStraight};

use crate::items::{Straightener, int_place, is_named, name_of};
use crate::names::are_scoped;
use crate::sums::operand;
use c_straight_model::{BlockItems, Operand, Program};
use c_tree::{
    BaseWord, BlockItem, Declarator, Expression, External, Parameter, Specifier, Statement, Tree,
};
use kv_base::NoMemory;
use std::alloc::Global;

/// The items of a body that ends with `return 0;`.
#[tactic(auto, using(crate::proofs::Bodies::body_next, crate::proofs::Bodies::body_stops, crate::proofs::Bodies::body_closed, crate::proofs::Bodies::body_open, crate::proofs::Bodies::body_none))]
fn body(reader: &Straightener<'_>, items: &[BlockItem]) -> Result<Option<BlockItems>, NoMemory>
    ensures { IfOk result (λ made. made ≡ spec.body_of reader.now.lines.now reader.now.depth items.now) }
{
    let mut found = BlockItems::new(reader.alloc);
    'items: for (at, item) in items.iter().enumerate() {
        if at + 1 == items.len() {
            if !returns_zero(reader.alloc, item)? {
                return Ok(None);
            }
            return Ok(Some(found));
        }
        let Some(next) = reader.item(item)? else {
            return Ok(None);
        };
        found.push(next)?;
    }
    Ok(None)
}

/// Whether an expression is the number 0.
fn is_zero(alloc: Global, x: &Expression) -> Result<bool, NoMemory>
    ensures { IfOk result (λ is. is ≡ spec.is_zero (spec.operand_of x.now)) }
{
    match operand(alloc, x)? {
        Some(Operand::Number { value }) => Ok(value == 0),
        _ => Ok(false),
    }
}

/// Whether an item is `return 0;`.
fn returns_zero(alloc: Global, x: &BlockItem) -> Result<bool, NoMemory>
    ensures { IfOk result (λ is. is ≡ spec.returns_zero x.now) }
{
    match x {
        BlockItem::Run {
            statement: Statement::Return {
                value: Some(value),
                ..
            },
        } => is_zero(alloc, value),
        _ => Ok(false),
    }
}

/// Whether the specifiers are `void` alone.
fn is_void(list: &[Specifier]) -> bool
    ensures { result ≡ spec.is_void list.now }
{
    matches!(
        list,
        [Specifier::Base {
            word: BaseWord::Void,
            ..
        }]
    )
}

/// Whether parameters are `(void)` (6.7.6.3p10).
fn is_none(parameters: &[Parameter]) -> bool
    ensures { result ≡ spec.is_none parameters.now }
{
    let [parameter] = parameters else {
        return false;
    };
    let is_unnamed = matches!(parameter.declarator, Declarator::Unnamed { .. });
    is_void(parameter.specifiers.as_slice()) && is_unnamed
}

/// Whether a declarator is `main(void)`.
fn names_main(x: &Declarator) -> bool
    ensures { result ≡ spec.names_main x.now }
{
    match x {
        Declarator::Function {
            inner,
            parameters,
            variadic,
            ..
        } => {
            is_named(b"main", name_of(inner.get()))
                && is_none(parameters.as_slice())
                && variadic.is_none()
        }
        _ => false,
    }
}

/// The items of the one function of a text.
fn items(reader: &Straightener<'_>, externals: &[External]) -> Result<Option<BlockItems>, NoMemory>
    ensures { IfOk result (λ made. reader.now.depth ≡ length reader.now.lines.now → made ≡ spec.items_of reader.now.lines.now externals.now) }
{
    let [
        External::Defined {
            specifiers,
            declarator,
            body: inside,
            ..
        },
    ] = externals
    else {
        return Ok(None);
    };
    if int_place(specifiers.as_slice()).is_none() || !names_main(declarator) {
        return Ok(None);
    }
    body(reader, inside.as_slice())
}

/// The straight program that a tree is, if it is one: one function `main` of declarations, assignments
/// and assertions over `int` objects, each declared before it is used.
pub fn straight(alloc: Global, tree: &Tree) -> Result<Option<Program>, NoMemory>
    ensures found { IfOk result (λ made. IfSome made (IsStraight tree.now)) }
    ensures none { IfOk result (λ made. IfNone made ((program : Program) → IsStraight tree.now program → ⊥)) }
{
    let reader = Straightener {
        alloc,
        lines: tree.lines.as_slice(),
        depth: tree.lines.len(),
    };
    let Some(items) = items(&reader, tree.externals.as_slice())? else {
        return Ok(None);
    };
    if !are_scoped(alloc, items.as_slice())? {
        return Ok(None);
    }
    Ok(Some(Program { items }))
}

//! Copies of declarations.

ghost use Rattle.std.specs.Prelude.{◌≡◌, IfOk};

use c_tree::{Declaration, Declared, DeclaredNames, Initialiser};
use c_tree_copies::{copy_declarator, copy_expression, copy_specifiers};
use kv_base::NoMemory;
use sqlite_items::Items;
use std::alloc::Global;

/// An equal initialiser, or out of memory.
#[cycle(initialisers)]
pub fn copy_initialiser(alloc: Global, x: &Initialiser) -> Result<Initialiser, NoMemory>
    ensures { IfOk result (λ made. made ≡ x.now) }
{
    match x {
        Initialiser::Value { value, at } => Ok(Initialiser::Value {
            value: copy_expression(alloc, value)?,
            at: *at,
        }),
        Initialiser::Braces { parts, at } => Ok(Initialiser::Braces {
            parts: copy_initialisers(alloc, parts)?,
            at: *at,
        }),
    }
}

/// Equal initialisers.
#[cycle(initialisers)]
fn copy_initialisers(
    alloc: Global,
    items: &Items<Initialiser>,
) -> Result<Items<Initialiser>, NoMemory>
    ensures { IfOk result (λ made. made ≡ items.now) }
{
    let mut made = Items::new(alloc);
    for item in items.as_slice() {
        made.push(copy_initialiser(alloc, item)?)?;
    }
    Ok(made)
}

/// An equal declarator of a declaration.
pub fn copy_declared(alloc: Global, x: &Declared) -> Result<Declared, NoMemory>
    ensures { IfOk result (λ made. made ≡ x.now) }
{
    match x {
        Declared::Plain { declarator } => Ok(Declared::Plain {
            declarator: copy_declarator(alloc, declarator)?,
        }),
        Declared::Initialised {
            declarator,
            initialiser,
            at,
        } => Ok(Declared::Initialised {
            declarator: copy_declarator(alloc, declarator)?,
            initialiser: copy_initialiser(alloc, initialiser)?,
            at: *at,
        }),
    }
}

/// Equal declarators of a declaration.
fn copy_declared_names(alloc: Global, names: &DeclaredNames) -> Result<DeclaredNames, NoMemory>
    ensures { IfOk result (λ made. made ≡ names.now) }
{
    let mut made = DeclaredNames::new(alloc);
    for name in names.as_slice() {
        made.push(copy_declared(alloc, name)?)?;
    }
    Ok(made)
}

/// An equal declaration.
pub fn copy_declaration(alloc: Global, x: &Declaration) -> Result<Declaration, NoMemory>
    ensures { IfOk result (λ made. made ≡ x.now) }
{
    Ok(Declaration {
        specifiers: copy_specifiers(alloc, &x.specifiers)?,
        names: copy_declared_names(alloc, &x.names)?,
        at: x.at,
    })
}

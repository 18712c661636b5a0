//! Copies of whole trees.

ghost use Rattle.std.specs.Prelude.{◌≡◌, IfOk};

use crate::declaration::copy_declaration;
use crate::statement::copy_block_items;
use c_tree::{External, Externals, TokenLines, Tree};
use c_tree_copies::{copy_declarator, copy_specifiers};
use kv_base::NoMemory;
use std::alloc::Global;

/// An equal external declaration, or out of memory.
pub fn copy_external(alloc: Global, x: &External) -> Result<External, NoMemory>
    ensures { IfOk result (λ made. made ≡ x.now) }
{
    match x {
        External::Empty { at } => Ok(External::Empty { at: *at }),
        External::Declared { declaration } => Ok(External::Declared {
            declaration: copy_declaration(alloc, declaration)?,
        }),
        External::Defined {
            specifiers,
            declarator,
            body,
            at,
        } => Ok(External::Defined {
            specifiers: copy_specifiers(alloc, specifiers)?,
            declarator: copy_declarator(alloc, declarator)?,
            body: copy_block_items(alloc, body)?,
            at: *at,
        }),
    }
}

/// Equal external declarations.
fn copy_externals(alloc: Global, externals: &Externals) -> Result<Externals, NoMemory>
    ensures { IfOk result (λ made. made ≡ externals.now) }
{
    let mut made = Externals::new(alloc);
    for external in externals.as_slice() {
        made.push(copy_external(alloc, external)?)?;
    }
    Ok(made)
}

/// An equal tree, or out of memory.
pub fn copy_tree(alloc: Global, tree: &Tree) -> Result<Tree, NoMemory>
    ensures { IfOk result (λ made. made ≡ tree.now) }
{
    Ok(Tree {
        externals: copy_externals(alloc, &tree.externals)?,
        lines: TokenLines::from_slice(alloc, tree.lines.as_slice())?,
    })
}

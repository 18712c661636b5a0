//! Declarators with one part more (C11 6.7.6).

ghost use Rattle.std.specs.Prelude.{◌≡◌, IfOk};
ghost use Rattle.c_tree.specs.Spells as spelled;
ghost use Rattle.c_tree.specs.declared.expression.Declarator.TheVariants as tree;
ghost use Rattle.c_grammar.specs.ReadTypes as spec;
ghost use Rattle.c_cursor.specs.Reads.{titled_of};

use crate::declarators::Parameters;
use crate::sizes::array_of;
use c_boxes::beside;
use c_cursor::{BlockScope, Titled};
use c_tree::{Declarator, Expression, Qualifier};
use kv_base::{NoMemory, Sequence};
use sqlite_items::Boxed;
use std::alloc::Global;

/// `* qualifiers inner`.
pub fn pointer_to(
    alloc: Global,
    qualifiers: Sequence<Qualifier>,
    inner: Declarator,
    at: usize,
) -> Result<Declarator, NoMemory>
    ensures { IfOk result (λ made. made ≡ tree.Pointer qualifiers inner at) }
{
    let (inner, qualifiers) = beside(alloc, inner, qualifiers)?;
    Ok(Declarator::Pointer {
        qualifiers,
        inner,
        at,
    })
}

/// `inner[]`.
fn open_array_of(alloc: Global, inner: Declarator, at: usize) -> Result<Declarator, NoMemory>
    ensures { IfOk result (λ made. made ≡ tree.OpenArray inner at) }
{
    let inner = Boxed::new(alloc, inner)?;
    Ok(Declarator::OpenArray { inner, at })
}

/// `inner(parameters)`.
fn function_of(
    alloc: Global,
    inner: Declarator,
    taken: Parameters,
    at: usize,
) -> Result<Declarator, NoMemory>
    ensures { IfOk result (λ made. made ≡ tree.Function inner taken.list taken.variadic at) }
{
    let Parameters { list, variadic } = taken;
    let (inner, parameters) = beside(alloc, inner, list)?;
    Ok(Declarator::Function {
        inner,
        parameters,
        variadic,
        at,
    })
}

/// A pointer to what the name is.
pub fn pointer(
    alloc: Global,
    qualifiers: Sequence<Qualifier>,
    at: usize,
    titled: Titled,
) -> Result<Titled, NoMemory>
    ensures { IfOk result (λ made. titled_of made ≡ spec.Titles titled.name titled.parameters (tree.Pointer qualifiers titled.inner at)) }
{
    let Titled {
        name,
        parameters,
        inner,
    } = titled;
    let inner = pointer_to(alloc, qualifiers, inner, at)?;
    Ok(Titled {
        name,
        parameters,
        inner,
    })
}

/// An array of a number of what the name is.
pub fn array(alloc: Global, titled: Titled, size: Expression, at: usize) -> Result<Titled, NoMemory>
    ensures { IfOk result (λ made. titled_of made ≡ spec.Titles titled.name titled.parameters (tree.Array titled.inner size at)) }
{
    let Titled {
        name,
        parameters,
        inner,
    } = titled;
    let inner = array_of(alloc, inner, size, at)?;
    Ok(Titled {
        name,
        parameters,
        inner,
    })
}

/// An array of what the name is, without a size.
pub fn open_array(alloc: Global, titled: Titled, at: usize) -> Result<Titled, NoMemory>
    ensures { IfOk result (λ made. titled_of made ≡ spec.Titles titled.name titled.parameters (tree.OpenArray titled.inner at)) }
{
    let Titled {
        name,
        parameters,
        inner,
    } = titled;
    let inner = open_array_of(alloc, inner, at)?;
    Ok(Titled {
        name,
        parameters,
        inner,
    })
}

/// The parameters nearest to the name: those that were found before, or these.
fn nearest(found: Option<BlockScope>, here: BlockScope) -> Option<BlockScope>
    ensures { result ≡ spelled.nearest found here }
{
    found.or(Some(here))
}

/// A function with these parameters, which declare a block, that gives what the name is.
pub fn function(
    alloc: Global,
    titled: Titled,
    taken: Parameters,
    block: BlockScope,
    at: usize,
) -> Result<Titled, NoMemory>
    ensures { IfOk result (λ made. titled_of made ≡ spec.Titles titled.name (spelled.nearest titled.parameters block) (tree.Function titled.inner taken.list taken.variadic at)) }
{
    let Titled {
        name,
        parameters,
        inner,
    } = titled;
    let parameters = nearest(parameters, block);
    let inner = function_of(alloc, inner, taken, at)?;
    Ok(Titled {
        name,
        parameters,
        inner,
    })
}

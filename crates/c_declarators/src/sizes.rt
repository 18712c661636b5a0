//! Arrays and their sizes (C11 6.7.6.2).

ghost use Rattle.std.specs.Prelude.{◌≡◌, IfOk};
ghost use Rattle.c_tree.specs.declared.expression.Declarator.TheVariants as tree;
ghost use Rattle.c_tree.specs.SpellsText.{kinds_of};
ghost use Rattle.c_cursor.specs.Reads.{Reads};
ghost use Rattle.c_cursor.specs.Parts.{ReadsExpressions};
ghost use Rattle.c_declarators.specs.TypeNames.{closed_size};

use c_boxes::{keeping, pair};
use c_cursor::{Cursor, Fault, Mark, take};
use c_grammar::CONDITIONAL;
use c_tokens::Token;
use c_tree::{Declarator, Expression};
use kv_base::NoMemory;
use std::alloc::Global;

/// The size of an array, with the `]` after it, in at most a given number of steps.
#[tactic(auto, using(c_cursor::proofs::Skipped::square_closes_taken, c_cursor::proofs::Skipped::square_closes_missing))]
pub fn closed_size<R: Fn(Global, &[Token], usize, u8, &mut Cursor) -> Result<Expression, Fault>>(
    alloc: Global,
    tokens: &[Token],
    depth: usize,
    read: &R,
    place: &mut Cursor,
) -> Result<Expression, Fault>
    requires { ReadsExpressions depth (R.pre read.now) (R.post read.now) }
    ensures { Reads (closed_size (kinds_of tokens.now) depth place.old) result place.new }
{
    let size = read(alloc, tokens, depth, CONDITIONAL, place)?;
    let (size, _) = keeping(size, take(tokens, Mark::SquareCloses, place))?;
    Ok(size)
}

/// `inner[size]`.
pub fn array_of(
    alloc: Global,
    inner: Declarator,
    size: Expression,
    at: usize,
) -> Result<Declarator, NoMemory>
    ensures { IfOk result (λ made. made ≡ tree.Array inner size at) }
{
    let (inner, size) = pair(alloc, inner, size)?;
    Ok(Declarator::Array { inner, size, at })
}

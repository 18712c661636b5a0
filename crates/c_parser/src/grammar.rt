//! Each rule of the grammar takes what reads its parts as parameters; here the rules reach one another.

ghost use Rattle.c_tree.specs.SpellsText.{kinds_of};
ghost use Rattle.c_grammar.specs.Marks.{mark_at};
ghost use Rattle.c_grammar.specs.Readers as spec;
ghost use Rattle.c_grammar.specs.ReadTypes.{separated, separated_after};
ghost use Rattle.c_grammar.specs.ReadStatements as statements;
ghost use Rattle.c_cursor.specs.Reads.{Reads, ReadsAs, specified_of, perhaps_of, titled_of};
ghost use Rattle.c_cursor.specs.Parts.{lines_at, constants_at};

use crate::statements::statement_over;
use c_cursor::{Cursor, Fault, Inside, Perhaps, Specified, Titled, refuse};
use c_declarations::Declarations;
use c_declarators::{Declarators, TypeNames};
use c_operands::{Operands, Suffixes};
use c_specifiers::{Constants, Members, Specifiers};
use c_statements::Statements;
use c_tokens::Token;
use c_tree::{
    BlockItem, Declaration, Declared, DeclaredNames, EnumConstant, Expression, MemberLine,
    Statement, TypeName,
};
use sqlite_items::Items;
use std::alloc::Global;

/// An expression of a level or above.
#[cycle(grammar)]
fn read(
    alloc: Global,
    tokens: &[Token],
    depth: usize,
    least: u8,
    place: &mut Cursor,
) -> Result<Expression, Fault>
    ensures { Reads (spec.read (kinds_of tokens.now) depth least place.old) result place.new }
{
    let height = place.descend()?;
    let whole = expression(alloc, tokens, depth, least, place)?;
    Ok(place.ascend(height, whole)?)
}

/// An expression of a level or above, over those inside.
#[cycle(grammar)]
fn expression(
    alloc: Global,
    tokens: &[Token],
    depth: usize,
    least: u8,
    place: &mut Cursor,
) -> Result<Expression, Fault>
    ensures { Reads (spec.read (kinds_of tokens.now) depth least place.old) result place.new }
{
    if depth == 0 {
        return Err(refuse(place));
    }
    Operands {
        suffixes: Suffixes {
            alloc,
            tokens,
            depth: depth - 1,
            read,
        },
        types,
    }
    .operand(least, place)
}

/// A type name.
#[cycle(grammar)]
fn types(
    alloc: Global,
    tokens: &[Token],
    depth: usize,
    place: &mut Cursor,
) -> Result<TypeName, Fault>
    ensures { Reads (spec.types (kinds_of tokens.now) depth place.old) result place.new }
{
    TypeNames {
        alloc,
        tokens,
        depth,
        read,
        specifiers,
    }
    .type_name(place)
}

/// Specifiers.
#[cycle(grammar)]
pub fn specifiers(
    alloc: Global,
    tokens: &[Token],
    depth: usize,
    place: &mut Cursor,
) -> Result<Specified, Fault>
    ensures { ReadsAs specified_of (spec.specifiers (kinds_of tokens.now) depth place.old) result place.new }
{
    let height = place.descend()?;
    let whole = all_specifiers(alloc, tokens, depth, place)?;
    Ok(place.ascend(height, whole)?)
}

/// Specifiers, over those inside.
#[cycle(grammar)]
fn all_specifiers(
    alloc: Global,
    tokens: &[Token],
    depth: usize,
    place: &mut Cursor,
) -> Result<Specified, Fault>
    ensures { ReadsAs specified_of (spec.specifiers (kinds_of tokens.now) depth place.old) result place.new }
{
    if depth == 0 {
        return Err(refuse(place));
    }
    Specifiers {
        alloc,
        tokens,
        depth: depth - 1,
        lines,
        constants,
    }
    .all_specifiers(place)
}

/// The lines of a struct, up to its `}`.
#[cycle(grammar)]
fn lines(
    alloc: Global,
    tokens: &[Token],
    depth: usize,
    place: &mut Cursor,
) -> Result<Items<MemberLine>, Fault>
    ensures { Reads (lines_at (kinds_of tokens.now) depth place.old) result place.new }
{
    Members {
        alloc,
        tokens,
        depth,
        read,
        specifiers,
        declarator,
    }
    .lines(place)
}

/// The constants of an enumeration, up to its `}`.
#[cycle(grammar)]
fn constants(
    alloc: Global,
    tokens: &[Token],
    depth: usize,
    place: &mut Cursor,
) -> Result<Items<EnumConstant>, Fault>
    ensures { Reads (constants_at (kinds_of tokens.now) depth place.old) result place.new }
{
    Constants {
        alloc,
        tokens,
        depth,
        read,
    }
    .constants(place)
}

/// A declarator with a name, and what has no meaning after it.
#[cycle(grammar)]
pub fn declarator(
    alloc: Global,
    tokens: &[Token],
    depth: usize,
    place: &mut Cursor,
) -> Result<Titled, Fault>
    ensures { ReadsAs titled_of (spec.declarator (kinds_of tokens.now) depth place.old) result place.new }
{
    Declarators {
        alloc,
        tokens,
        depth,
        read,
        specifiers,
        perhaps,
    }
    .named_declarator(place)
}

/// A declarator, or what stands for one in a parameter.
#[cycle(grammar)]
fn perhaps(
    alloc: Global,
    tokens: &[Token],
    depth: usize,
    place: &mut Cursor,
) -> Result<Perhaps, Fault>
    ensures { ReadsAs perhaps_of (spec.perhaps (kinds_of tokens.now) depth place.old) result place.new }
{
    let height = place.descend()?;
    let whole = any_declarator(alloc, tokens, depth, place)?;
    Ok(place.ascend(height, whole)?)
}

/// A declarator, or what stands for one in a parameter, over those inside.
#[cycle(grammar)]
fn any_declarator(
    alloc: Global,
    tokens: &[Token],
    depth: usize,
    place: &mut Cursor,
) -> Result<Perhaps, Fault>
    ensures { ReadsAs perhaps_of (spec.perhaps (kinds_of tokens.now) depth place.old) result place.new }
{
    if depth == 0 {
        return Err(refuse(place));
    }
    Declarators {
        alloc,
        tokens,
        depth: depth - 1,
        read,
        specifiers,
        perhaps,
    }
    .declarator(place)
}

/// A declaration.
fn declaration(
    alloc: Global,
    tokens: &[Token],
    depth: usize,
    place: &mut Cursor,
) -> Result<Declaration, Fault>
    ensures { Reads (statements.declaration (kinds_of tokens.now) depth place.old) result place.new }
{
    Declarations {
        alloc,
        tokens,
        depth,
        read,
        specifiers,
        declarator,
    }
    .declaration(place)
}

/// What stands after a declarator, whose name is a typedef name or not.
pub fn declared_after(
    alloc: Global,
    tokens: &[Token],
    depth: usize,
    defines: bool,
    titled: Titled,
    place: &mut Cursor,
) -> Result<Declared, Fault>
    ensures { let kinds = kinds_of tokens.now in Reads (statements.declared_after kinds (statements.initialiser kinds depth) defines (titled_of titled) place.old) result place.new }
{
    Declarations {
        alloc,
        tokens,
        depth,
        read,
        specifiers,
        declarator,
    }
    .declared_after(defines, titled, place)
}

/// The first declarator, and up to this many after it.
pub fn further_names(
    alloc: Global,
    tokens: &[Token],
    depth: usize,
    defines: bool,
    count: usize,
    first: Declared,
    place: &mut Cursor,
) -> Result<DeclaredNames, Fault>
    ensures { let kinds = kinds_of tokens.now in Reads (separated_after (separated kinds (statements.declared kinds (spec.declarator kinds depth) (statements.initialiser kinds depth) defines) count) first place.old (mark_at kinds place.old)) result place.new }
{
    Declarations {
        alloc,
        tokens,
        depth,
        read,
        specifiers,
        declarator,
    }
    .further_names(defines, count, first, place)
}

/// A statement.
#[cycle(statement)]
fn statement(
    alloc: Global,
    tokens: &[Token],
    depth: usize,
    place: &mut Cursor,
) -> Result<Statement, Fault>
    ensures { Reads (statements.statement (kinds_of tokens.now) depth place.old) result place.new }
{
    let height = place.descend()?;
    let whole = any_statement(alloc, tokens, depth, place)?;
    Ok(place.ascend(height, whole)?)
}

/// A statement inside one that chooses or repeats, which counts as three levels, since its rule takes more of the stack
/// than others.
#[cycle(statement)]
fn controlled(
    alloc: Global,
    tokens: &[Token],
    depth: usize,
    place: &mut Cursor,
) -> Result<Statement, Fault>
    ensures { Reads (statements.statement (kinds_of tokens.now) depth place.old) result place.new }
{
    let outer = place.descend()?;
    let inner = place.descend()?;
    let whole = statement(alloc, tokens, depth, place)?;
    let whole = place.ascend(inner, whole)?;
    Ok(place.ascend(outer, whole)?)
}

/// A statement, over those inside.
#[cycle(statement)]
fn any_statement(
    alloc: Global,
    tokens: &[Token],
    depth: usize,
    place: &mut Cursor,
) -> Result<Statement, Fault>
    ensures { Reads (statements.statement (kinds_of tokens.now) depth place.old) result place.new }
{
    if depth == 0 {
        return Err(refuse(place));
    }
    let inside = Inside {
        alloc,
        tokens,
        steps: depth,
        depth: depth - 1,
        read,
        declaration,
        statement,
    };
    statement_over(inside, controlled, place)
}

/// The items of a block, to its `}`.
pub fn block_items(
    alloc: Global,
    tokens: &[Token],
    depth: usize,
    place: &mut Cursor,
) -> Result<Items<BlockItem>, Fault>
    ensures { let kinds = kinds_of tokens.now in Reads (statements.block kinds (statements.declaration kinds depth) (statements.statement kinds depth) depth place.old) result place.new }
{
    let inside = Inside {
        alloc,
        tokens,
        steps: depth,
        depth,
        read,
        declaration,
        statement,
    };
    Statements { inside }.items(place)
}

//! External declarations and whole texts (C11 6.9).

ghost use Rattle.std.specs.Prelude.{◌≡◌, ◌<◌};
ghost use Rattle.c_tree.specs.SpellsText.{kinds_of, beginning, parameters_of};
ghost use Rattle.c_grammar.specs.Marks.{mark_at};
ghost use Rattle.c_grammar.specs.ReadText as spec;
ghost use Rattle.c_grammar.specs.ReadStatements.{declaration, block, statement, names_with, initialiser};
ghost use Rattle.c_grammar.specs.ReadStatements as statements;
ghost use Rattle.c_grammar.specs.ReadExpressions.{and_then};
ghost use Rattle.c_cursor.specs.Reads.{Reads, specified_of, titled_of};
ghost use Rattle.c_parser.specs.Parses.{ReadsText};

use crate::grammar::{block_items, declarator, declared_after, further_names, specifiers};
use c_cursor::{BlockScope, Cursor, Fault, Mark, Specified, Titled, mark_at, refuse, take};
use c_tokens::Token;
use c_tree::{Declaration, DeclaredNames, External, Externals, Specifier};
use kv_base::Stack;
use sqlite_items::Items;
use std::alloc::Global;

/// The parameters that a body sees.
fn parameters_of(alloc: Global, parameters: Option<BlockScope>) -> BlockScope
    ensures { result ≡ parameters_of parameters }
{
    match parameters {
        Some(block) => block,
        None => Stack::new(alloc),
    }
}

/// The body of a function (6.9.1).
fn defined(
    alloc: Global,
    tokens: &[Token],
    depth: usize,
    specified: Specified,
    titled: Titled,
    place: &mut Cursor,
) -> Result<External, Fault>
    requires here { place.old.at < usize.MAX }
    ensures { let kinds = kinds_of tokens.now in Reads (spec.defined kinds (block kinds (declaration kinds depth) (statement kinds depth) depth) specified.defines specified.list (titled_of titled) place.old) result place.new }
{
    let at = place.at();
    place.skip();
    place.declare(titled.name, specified.defines)?;
    place.enter_with(parameters_of(alloc, titled.parameters))?;
    let body = block_items(alloc, tokens, depth, place)?;
    take(tokens, Mark::CurlyCloses, place)?;
    place.leave();
    Ok(External::Defined {
        specifiers: specified.list,
        declarator: titled.inner,
        body,
        at,
    })
}

/// A declaration, after its first declarator.
fn external_declared(
    alloc: Global,
    tokens: &[Token],
    depth: usize,
    specified: Specified,
    titled: Titled,
    place: &mut Cursor,
) -> Result<External, Fault>
    ensures { let kinds = kinds_of tokens.now in Reads (and_then (statements.declared_after kinds (initialiser kinds depth) specified.defines (titled_of titled) place.old) (spec.external_names kinds (names_with kinds depth) specified.defines specified.list)) result place.new }
{
    let defines = specified.defines;
    let first = declared_after(alloc, tokens, depth, defines, titled, place)?;
    let names = further_names(alloc, tokens, depth, defines, depth, first, place)?;
    let at = place.at();
    take(tokens, Mark::Semicolon, place)?;
    Ok(External::Declared {
        declaration: Declaration {
            specifiers: specified.list,
            names,
            at,
        },
    })
}

/// What follows the specifiers.
fn external_after(
    alloc: Global,
    tokens: &[Token],
    depth: usize,
    specified: Specified,
    place: &mut Cursor,
) -> Result<External, Fault>
    ensures { Reads (spec.external_after (kinds_of tokens.now) depth (specified_of specified) place.old) result place.new }
{
    if let Mark::Semicolon = mark_at(tokens, place) {
        let at = place.at();
        place.skip();
        return Ok(External::Declared {
            declaration: Declaration {
                specifiers: specified.list,
                names: DeclaredNames::new(alloc),
                at,
            },
        });
    }
    let titled = declarator(alloc, tokens, depth, place)?;
    external_named(alloc, tokens, depth, specified, titled, place)
}

/// What follows the first declarator.
fn external_named(
    alloc: Global,
    tokens: &[Token],
    depth: usize,
    specified: Specified,
    titled: Titled,
    place: &mut Cursor,
) -> Result<External, Fault>
    ensures { let kinds = kinds_of tokens.now in Reads (spec.external_by kinds depth specified.defines specified.list (titled_of titled) place.old (mark_at kinds place.old)) result place.new }
{
    match mark_at(tokens, place) {
        Mark::CurlyOpens => defined(alloc, tokens, depth, specified, titled, place),
        _ => external_declared(alloc, tokens, depth, specified, titled, place),
    }
}

/// An external declaration (6.9).
fn external(
    alloc: Global,
    tokens: &[Token],
    depth: usize,
    place: &mut Cursor,
) -> Result<External, Fault>
    ensures { Reads (spec.external (kinds_of tokens.now) depth place.old) result place.new }
{
    if let Mark::Semicolon = mark_at(tokens, place) {
        let at = place.at();
        place.skip();
        return Ok(External::Empty { at });
    }
    let specified = specifiers(alloc, tokens, depth, place)?;
    external_after(alloc, tokens, depth, specified, place)
}

/// Up to a given number of external declarations, to the end of the text.
fn externals(
    alloc: Global,
    tokens: &[Token],
    depth: usize,
    count: usize,
    place: &mut Cursor,
) -> Result<Externals, Fault>
    ensures { Reads (spec.externals (kinds_of tokens.now) depth count place.old) result place.new }
{
    let mut found = Externals::new(alloc);
    for _turn in 0..count {
        if place.kind(tokens).is_none() {
            return Ok(found);
        }
        let next = external(alloc, tokens, depth, place)?;
        found.push(next)?;
    }
    Err(refuse(place))
}

/// The external declarations of a text. Where it has a fault of syntax, the fault's number is that of a token that can't
/// stand there.
pub fn text(alloc: Global, tokens: &[Token]) -> Result<Externals, Fault>
    ensures { ReadsText (spec.text (kinds_of tokens.now)) result }
{
    let mut place = Cursor::new(alloc)?;
    let steps = tokens.len() + 1;
    externals(alloc, tokens, steps, steps, &mut place)
}

//! The parser of whole texts.

ghost use Rattle.std.specs.Prelude.{◌≡◌, ◌≤◌, ℕ, IfOk, length};
ghost use Rattle.c_tree.specs.SpellsText.{Spells, lines_of};
ghost use Rattle.c_parser.specs.Parses.{left_out, IsFirstTooDeep, IsWithin, SpellsNone, IsWhole, IsShallow};

use crate::externals::text;
use c_cursor::Fault;
use c_grammar_laws::laws::one_tree;
use c_nesting::{first_left_out, first_too_deep, fits};
use c_tokens::{MAX_DEPTH, Token, Tokens};
use c_tree::{TokenLines, Tree};
use kv_base::NoMemory;
use std::alloc::Global;
use thiserror::Error;

/// Why tokens have no tree: what the accepted C leaves out comes before what is nested too deep, and that before what C11
/// does not spell. Tokens are numbered from 0.
#[derive(Debug, Drop, Error)]
pub enum ParseFault {
    /// The first token that the accepted C leaves out.
    #[error("token {at} is left out of the accepted C")]
    LeftOut { at: usize },
    /// The first token after which the text is nested deeper than `MAX_NESTING`.
    #[error("nested too deep at token {at}")]
    TooDeep { at: usize },
    /// A token that can't stand there.
    #[error("syntax error at token {at}")]
    Syntax { at: usize },
    /// Out of memory, or deeper than `MAX_DEPTH`.
    #[error("out of memory")]
    NoMemory,
}

impl From<NoMemory> for ParseFault {
    ghost use Rattle.c_parser.specs.declared.parser.ParseFault.TheVariants.{NoMemory};

    ghost from_gives = { λ e f. f ≡ NoMemory };

    fn from(_: NoMemory) -> ParseFault {
        ParseFault::NoMemory
    }
}

/// The tree of a text (C11 6.9). Where the tokens have no tree, `Syntax` names a token, or their end, which isn't
/// promised to be the first fault.
///
/// # Errors
///
/// What the text is refused for.
pub fn parse(alloc: Global, tokens: &Tokens) -> Result<Tree, ParseFault>
    ensures parsed { IfOk result (λ tree. IsWithin tokens.now × Spells tokens.now tree) }
    ensures left_out { (at : ℕ) → result ≡ Err (ParseFault.LeftOut at) → left_out tokens.now ≡ Some at }
    ensures too_deep { (at : ℕ) → result ≡ Err (ParseFault.TooDeep at) → (left_out tokens.now ≡ None) × IsFirstTooDeep tokens.now (Some at) }
    ensures syntax { (at : ℕ) → result ≡ Err (ParseFault.Syntax at) → IsWithin tokens.now × SpellsNone tokens.now }
    ensures place { (at : ℕ) → result ≡ Err (ParseFault.Syntax at) → at ≤ length tokens.now }
    ensures shallow { IfOk result IsShallow }
{
    let tokens = tokens.as_slice();
    if let Some(at) = first_left_out(tokens) {
        return Err(ParseFault::LeftOut { at });
    }
    if let Some(at) = first_too_deep(alloc, tokens)? {
        return Err(ParseFault::TooDeep { at });
    }
    bounded(alloc, tokens)
}

/// The line of each token.
fn lines_of(alloc: Global, tokens: &[Token]) -> Result<TokenLines, NoMemory>
    ensures { IfOk result (λ made. made ≡ lines_of tokens.now) }
{
    let mut lines = TokenLines::new(alloc);
    for token in tokens {
        lines.push(token.line)?;
    }
    Ok(lines)
}

/// The tree of a text, whatever it leaves out and however deep it is nested.
fn whole(alloc: Global, tokens: &[Token]) -> Result<Tree, ParseFault>
    ensures { IsWhole tokens.now result }
{
    // The law says that what `text` reads is what the tokens spell.
    one_tree();
    match text(alloc, tokens) {
        Ok(externals) => Ok(Tree {
            externals,
            lines: lines_of(alloc, tokens)?,
        }),
        Err(Fault::Syntax { at }) => Err(ParseFault::Syntax { at }),
        Err(Fault::NoMemory) => Err(ParseFault::NoMemory),
    }
}

/// The same, where the tree is no deeper than `MAX_DEPTH`.
fn bounded(alloc: Global, tokens: &[Token]) -> Result<Tree, ParseFault>
    ensures tree { IsWhole tokens.now result }
    ensures place { (at : ℕ) → result ≡ Err (ParseFault.Syntax at) → at ≤ length tokens.now }
    ensures shallow { IfOk result IsShallow }
{
    match whole(alloc, tokens) {
        Ok(tree) => Ok(shallow(tree)?),
        Err(ParseFault::Syntax { at }) => Err(ParseFault::Syntax {
            at: at.min(tokens.len()),
        }),
        Err(fault) => Err(fault),
    }
}

/// A tree that is no deeper than `MAX_DEPTH`.
fn shallow(tree: Tree) -> Result<Tree, NoMemory>
    ensures same { IfOk result (λ made. made ≡ tree) }
    ensures shallow { IfOk result IsShallow }
{
    if !fits(&tree, MAX_DEPTH) {
        return Err(NoMemory);
    }
    Ok(tree)
}

//! What has no meaning: `__extension__`, and `__attribute__` with what stands in its brackets.

ghost use Rattle.std.specs.Prelude.{◌≡◌, ◌<◌, []};
ghost use Rattle.c_tree.specs.SpellsText.{kinds_of};
ghost use Rattle.c_cursor.specs.Bare.{bare_bracketing, IsToken, attribute_alone};
ghost use Rattle.c_grammar.specs.Kinds.{kind_at};
ghost use Rattle.c_grammar.specs.Marks as marks;
ghost use Rattle.c_grammar.specs.ReadTypes as spec;
ghost use Rattle.c_cursor.specs.Reads.{Reads};

use crate::Cursor;
use crate::fault::{Fault, refuse};
use crate::marks::{Mark, mark_at, take};
use c_tokens::{Token, TokenKind};
use kv_base::Stack;
use std::alloc::Global;

/// A bracket that balances (C11 6.4.6).
#[derive(Clone, Copy, Drop, PartialEq, Eq)]
pub enum Bracket {
    Round,
    Square,
    Curly,
}

/// What a token is for the brackets.
#[derive(Clone, Copy)]
pub enum Bracketing {
    Opens(Bracket),
    Closes(Bracket),
    NoBracket,
    NoToken,
}

/// What the next token is for the brackets.
fn bracketing_at(tokens: &[Token], place: &Cursor) -> Bracketing
    ensures value { result ≡ bare_bracketing (marks.bracketing (kind_at (kinds_of tokens.now) place.now)) }
    ensures within { IsToken result → place.now.at < usize.MAX }
{
    match place.kind(tokens) {
        Some(TokenKind::LeftParenthesis) => Bracketing::Opens(Bracket::Round),
        Some(TokenKind::LeftBracket) => Bracketing::Opens(Bracket::Square),
        Some(TokenKind::LeftBrace) => Bracketing::Opens(Bracket::Curly),
        Some(TokenKind::RightParenthesis) => Bracketing::Closes(Bracket::Round),
        Some(TokenKind::RightBracket) => Bracketing::Closes(Bracket::Square),
        Some(TokenKind::RightBrace) => Bracketing::Closes(Bracket::Curly),
        Some(_) => Bracketing::NoBracket,
        None => Bracketing::NoToken,
    }
}

/// Goes on to the first bracket that closes none of those on the way.
#[tactic(auto, using(crate::proofs::Skipped::balanced_opens, crate::proofs::Skipped::balanced_passes, crate::proofs::Skipped::balanced_no_token, crate::proofs::Skipped::balanced_ends, crate::proofs::Skipped::balanced_closes, crate::proofs::Skipped::balanced_differs, crate::proofs::Skipped::balanced_none))]
fn balanced(alloc: Global, tokens: &[Token], limit: usize, place: &mut Cursor) -> Result<(), Fault>
    ensures { Reads (spec.balanced (kinds_of tokens.now) limit [] place.old) result place.new }
{
    let mut pending = Stack::new(alloc);
    for _turn in 0..limit {
        match bracketing_at(tokens, place) {
            Bracketing::Opens(bracket) => pending.push(bracket)?,
            Bracketing::Closes(bracket) => match pending.pop() {
                None => return Ok(()),
                Some(innermost) if innermost == bracket => {}
                Some(_) => return Err(refuse(place)),
            },
            Bracketing::NoBracket => {}
            Bracketing::NoToken => return Err(refuse(place)),
        }
        place.skip();
    }
    Err(refuse(place))
}

/// What follows `__attribute__`.
#[tactic(auto, using(crate::proofs::Skipped::opens_taken, crate::proofs::Skipped::opens_missing, crate::proofs::Skipped::closes_taken, crate::proofs::Skipped::closes_missing))]
fn attribute(alloc: Global, tokens: &[Token], limit: usize, place: &mut Cursor) -> Result<(), Fault>
    ensures { Reads (attribute_alone (kinds_of tokens.now) limit place.old) result place.new }
{
    take(tokens, Mark::RoundOpens, place)?;
    take(tokens, Mark::RoundOpens, place)?;
    balanced(alloc, tokens, limit, place)?;
    take(tokens, Mark::RoundCloses, place)?;
    take(tokens, Mark::RoundCloses, place)
}

/// Attributes and `__extension__`, as many as there are.
#[tactic(auto, using(crate::proofs::Skipped::attributes_none, crate::proofs::Skipped::attributes_extension, crate::proofs::Skipped::attributes_next, crate::proofs::Skipped::attributes_refused, crate::proofs::Skipped::attributes_end))]
pub fn attributes(
    alloc: Global,
    tokens: &[Token],
    limit: usize,
    place: &mut Cursor,
) -> Result<(), Fault>
    ensures { Reads (spec.attributes (kinds_of tokens.now) limit place.old) result place.new }
{
    let mut left = limit;
    while left > 0 {
        left -= 1;
        match mark_at(tokens, place) {
            Mark::Extension => place.skip(),
            Mark::Attribute => {
                place.skip();
                attribute(alloc, tokens, left, place)?;
            }
            _ => return Ok(()),
        }
    }
    Err(refuse(place))
}

ghost use Rattle.std.specs.Prelude.{◌≡◌, ◌≤◌, length};
ghost use Rattle.std.specs.Prelude.{MatchResult};
ghost use Rattle.c_tree.specs.SpellsText.{Spells};
ghost use Rattle.c_parser.specs.Parses.{IsWithin};
ghost use Rattle.c_source.specs.Sources.{SpellsStraight, HasTokens, OneProgram, SpellsOrRefuses};
ghost use Rattle.c_source.specs.Causes.{IsCause, IsCauseBehind};

use crate::Refusal;
use crate::lines::{line_at, line_of};
use crate::words::word_at;
use c_grammar_laws::laws::one_tree;
use c_lexer::{LexFault, MAX_BYTES, lex};
use c_parser::{ParseFault, parse};
use c_straight::straight;
use c_straight_model::Program;
use c_tokens::{DataModel, Tokens};
use c_tree::Tree;
use kv_base::NoMemory;
use std::alloc::Global;

/// Why a source gives no program.
#[derive(Clone, Copy, Debug, PartialEq, Eq)]
pub enum Unread {
    /// It is refused.
    Refused { refusal: Refusal },
    /// Want of memory.
    NoMemory,
}

impl From<NoMemory> for Unread {
    ghost use Rattle.c_source.specs.declared.reading.Unread.TheVariants.{NoMemory};

    ghost from_gives = { λ e f. f ≡ NoMemory };

    fn from(_: NoMemory) -> Unread {
        Unread::NoMemory
    }
}

/// The tokens of a source.
fn tokens_of(alloc: Global, source: &[u8]) -> Result<Tokens, Unread>
    requires { length source.now ≤ MAX_BYTES }
    ensures { MatchResult result (HasTokens source.now) (IsCause source.now) }
{
    let refusal = match lex(alloc, source, DataModel::Lp64) {
        Ok(tokens) => return Ok(tokens),
        Err(LexFault::NoToken { at }) => Refusal::NoToken {
            line: line_of(source, at),
        },
        Err(LexFault::Directive { at }) => Refusal::Directive {
            line: line_of(source, at),
        },
        Err(LexFault::LongConstant { at }) => Refusal::LongConstant {
            line: line_of(source, at),
        },
        Err(LexFault::TooManyTokens { at }) => Refusal::TooManyTokens {
            line: line_of(source, at),
        },
        Err(LexFault::NoMemory) => return Err(Unread::NoMemory),
    };
    Err(Unread::Refused { refusal })
}

/// The tree of tokens.
fn tree_of(alloc: Global, tokens: &Tokens) -> Result<Tree, Unread>
    ensures { MatchResult result (λ tree. IsWithin tokens.now × Spells tokens.now tree) (IsCauseBehind tokens.now) }
{
    match parse(alloc, tokens) {
        Ok(tree) => Ok(tree),
        Err(ParseFault::LeftOut { at }) => Err(Unread::Refused {
            refusal: Refusal::LeftOut {
                word: word_at(tokens.as_slice(), at),
                line: line_at(tokens.as_slice(), at),
            },
        }),
        Err(ParseFault::TooDeep { at }) => Err(Unread::Refused {
            refusal: Refusal::TooDeep {
                line: line_at(tokens.as_slice(), at),
            },
        }),
        Err(ParseFault::Syntax { at }) => Err(Unread::Refused {
            refusal: Refusal::Syntax {
                line: line_at(tokens.as_slice(), at),
            },
        }),
        Err(ParseFault::NoMemory) => Err(Unread::NoMemory),
    }
}

/// The straight program that the bytes spell, or the first cause for which they are refused, in this order: their
/// length, their tokens, their grammar, and that their tree is no straight program's.
pub fn read_source(alloc: Global, source: &[u8]) -> Result<Program, Unread>
    ensures { MatchResult result (SpellsStraight source.now) (IsCause source.now) }
{
    if source.len() > MAX_BYTES {
        return Err(Unread::Refused {
            refusal: Refusal::TooLong,
        });
    }
    let tokens = match tokens_of(alloc, source) {
        Ok(tokens) => tokens,
        Err(unread) => return Err(unread),
    };
    let tree = match tree_of(alloc, &tokens) {
        Ok(tree) => tree,
        Err(unread) => return Err(unread),
    };
    match straight(alloc, &tree)? {
        Some(program) => Ok(program),
        None => Err(Unread::Refused {
            refusal: Refusal::NotYet,
        }),
    }
}

/// No bytes spell a straight program and are refused.
pub fn spells_or_refuses()
    ensures { SpellsOrRefuses }
{
    // The law says that tokens spell one tree at most.
    one_tree();
}

/// No bytes spell two straight programs.
pub fn one_program()
    ensures { OneProgram }
{
    // The law says that tokens spell one tree at most.
    one_tree();
}

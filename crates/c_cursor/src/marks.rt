//! What a token is for a declaration, a type or a statement.

ghost use Rattle.std.specs.Prelude.{◌≡◌, ◌<◌, ◌+◌};
ghost use Rattle.c_tree.specs.Places.{next};
ghost use Rattle.c_tree.specs.SpellsText.{kinds_of};
ghost use Rattle.c_grammar.specs.Marks as spec;
ghost use Rattle.c_cursor.specs.Bare.{bare, bare_at, IsMark, Takes};

use crate::Cursor;
use crate::fault::{Fault, refuse};
use c_tokens::{Token, TokenKind};
use c_tree::{BaseWord, FunctionWord, Qualifier, StorageWord};
use kv_num::IntType;

/// What a token is for a declaration, a type or a statement.
#[derive(Clone, Copy, PartialEq, Eq)]
pub enum Mark {
    /// `(`
    RoundOpens,
    /// `)`
    RoundCloses,
    /// `[`
    SquareOpens,
    /// `]`
    SquareCloses,
    /// `{`
    CurlyOpens,
    /// `}`
    CurlyCloses,
    Semicolon,
    Comma,
    Colon,
    /// `=`
    Equals,
    /// `*`
    Star,
    /// `...`
    Ellipsis,
    Name,
    Attribute,
    Extension,
    Stores(StorageWord),
    Functions(FunctionWord),
    Qualifies(Qualifier),
    Bases(BaseWord),
    TypeWords(IntType),
    Structs,
    Enums,
    Case,
    Default,
    If,
    Else,
    Switch,
    While,
    Do,
    For,
    Break,
    Continue,
    Return,
    NoMark,
}

/// What a token is.
fn mark_of(kind: &TokenKind) -> Mark
    ensures { result ≡ bare (spec.mark_of kind.now) }
{
    match kind {
        TokenKind::LeftParenthesis => Mark::RoundOpens,
        TokenKind::RightParenthesis => Mark::RoundCloses,
        TokenKind::LeftBracket => Mark::SquareOpens,
        TokenKind::RightBracket => Mark::SquareCloses,
        TokenKind::LeftBrace => Mark::CurlyOpens,
        TokenKind::RightBrace => Mark::CurlyCloses,
        TokenKind::Semicolon => Mark::Semicolon,
        TokenKind::Comma => Mark::Comma,
        TokenKind::Colon => Mark::Colon,
        TokenKind::Equal => Mark::Equals,
        TokenKind::Star => Mark::Star,
        TokenKind::Ellipsis => Mark::Ellipsis,
        TokenKind::Name { .. } => Mark::Name,
        TokenKind::Attribute => Mark::Attribute,
        TokenKind::Extension => Mark::Extension,
        TokenKind::Typedef => Mark::Stores(StorageWord::Typedef),
        TokenKind::Extern => Mark::Stores(StorageWord::Extern),
        TokenKind::Static => Mark::Stores(StorageWord::Static),
        TokenKind::Auto => Mark::Stores(StorageWord::Auto),
        TokenKind::Register => Mark::Stores(StorageWord::Register),
        TokenKind::Inline => Mark::Functions(FunctionWord::Inline),
        TokenKind::Noreturn => Mark::Functions(FunctionWord::Noreturn),
        TokenKind::Const => Mark::Qualifies(Qualifier::Const),
        TokenKind::Volatile => Mark::Qualifies(Qualifier::Volatile),
        TokenKind::Restrict => Mark::Qualifies(Qualifier::Restrict),
        TokenKind::Void => Mark::Bases(BaseWord::Void),
        TokenKind::Char => Mark::Bases(BaseWord::Char),
        TokenKind::Short => Mark::Bases(BaseWord::Short),
        TokenKind::Int => Mark::Bases(BaseWord::Int),
        TokenKind::Long => Mark::Bases(BaseWord::Long),
        TokenKind::Signed => Mark::Bases(BaseWord::Signed),
        TokenKind::Unsigned => Mark::Bases(BaseWord::Unsigned),
        TokenKind::Bool => Mark::Bases(BaseWord::Bool),
        TokenKind::TypeWord { kind } => Mark::TypeWords(*kind),
        TokenKind::Struct => Mark::Structs,
        TokenKind::Enum => Mark::Enums,
        TokenKind::Case => Mark::Case,
        TokenKind::Default => Mark::Default,
        TokenKind::If => Mark::If,
        TokenKind::Else => Mark::Else,
        TokenKind::Switch => Mark::Switch,
        TokenKind::While => Mark::While,
        TokenKind::Do => Mark::Do,
        TokenKind::For => Mark::For,
        TokenKind::Break => Mark::Break,
        TokenKind::Continue => Mark::Continue,
        TokenKind::Return => Mark::Return,
        _ => Mark::NoMark,
    }
}

/// What the next token is.
pub fn mark_at(tokens: &[Token], place: &Cursor) -> Mark
    ensures value { result ≡ bare_at (kinds_of tokens.now) place.now }
    ensures within { IsMark result → place.now.at < usize.MAX }
{
    match place.kind(tokens) {
        Some(kind) => mark_of(kind),
        None => Mark::NoMark,
    }
}

/// What the token after the next one is.
pub fn second_mark(tokens: &[Token], place: &Cursor) -> Mark
    ensures value { result ≡ bare_at (kinds_of tokens.now) (next place.now) }
    ensures within { IsMark result → place.now.at + 1 < usize.MAX }
{
    match place.second(tokens) {
        Some(kind) => mark_of(kind),
        None => Mark::NoMark,
    }
}

/// Takes a token that is this.
pub fn take(tokens: &[Token], wanted: Mark, place: &mut Cursor) -> Result<(), Fault>
    requires { IsMark wanted }
    ensures { Takes (kinds_of tokens.now) wanted place.old result place.new }
{
    if mark_at(tokens, place) != wanted {
        return Err(refuse(place));
    }
    place.skip();
    Ok(())
}

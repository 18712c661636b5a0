//! Single tokens that a rule of the grammar asks for.

ghost use Rattle.std.specs.Prelude.{◌≡◌, ◌<◌, OnOk};
ghost use Rattle.std.specs.Option.{option_copied};
ghost use Rattle.c_tree.specs.Places.{next};
ghost use Rattle.c_tree.specs.SpellsText.{kinds_of};
ghost use Rattle.c_grammar.specs.Kinds as spec;
ghost use Rattle.c_cursor.specs.Reads.{Reads, IsSuffix, name_read};

use crate::Cursor;
use crate::fault::{Fault, refuse};
use c_grammar::{Suffix, suffix_of};
use c_tokens::{Token, TokenKind};
use kv_base::{Bytes, Copied};
use std::alloc::Global;

/// What the next token is after an operand.
pub fn suffix(tokens: &[Token], place: &Cursor) -> Suffix
    ensures value { result ≡ spec.suffix (spec.kind_at (kinds_of tokens.now) place.now) }
    ensures within { IsSuffix result → place.now.at < usize.MAX }
{
    match place.kind(tokens) {
        Some(kind) => suffix_of(kind),
        None => Suffix::NoSuffix,
    }
}

/// Takes a name.
#[tactic(auto, unfolding(crate::specs::Reads::name_read))]
pub fn name(alloc: Global, tokens: &[Token], place: &mut Cursor) -> Result<Bytes, Fault>
    ensures reads { Reads (name_read (kinds_of tokens.now) place.old) result place.new }
    ensures next { OnOk result (place.new ≡ next place.old) }
{
    match place.kind(tokens) {
        Some(TokenKind::Name { text }) => {
            let name = text.copy(alloc)?;
            place.skip();
            Ok(name)
        }
        _ => Err(refuse(place)),
    }
}

/// Whether specifiers may begin with a token, by what names mean at a place.
pub fn is_start(kind: Option<&TokenKind>, place: &Cursor) -> bool
    ensures { result ≡ spec.is_start place.now (spec.start (option_copied kind.entry)) }
{
    match kind {
        Some(
            TokenKind::Typedef
            | TokenKind::Extern
            | TokenKind::Static
            | TokenKind::Auto
            | TokenKind::Register
            | TokenKind::Inline
            | TokenKind::Noreturn
            | TokenKind::Const
            | TokenKind::Volatile
            | TokenKind::Restrict
            | TokenKind::Void
            | TokenKind::Char
            | TokenKind::Short
            | TokenKind::Int
            | TokenKind::Long
            | TokenKind::Signed
            | TokenKind::Unsigned
            | TokenKind::Bool
            | TokenKind::TypeWord { .. }
            | TokenKind::Struct
            | TokenKind::Enum
            | TokenKind::Attribute
            | TokenKind::Extension,
        ) => true,
        Some(TokenKind::Name { text }) => place.names_type(text.as_slice()),
        _ => false,
    }
}

/// Whether specifiers may begin with the next token, by what names mean there.
pub fn begins_type(tokens: &[Token], place: &Cursor) -> bool
    ensures { result ≡ spec.begins_type (kinds_of tokens.now) place.now }
{
    is_start(place.kind(tokens), place)
}

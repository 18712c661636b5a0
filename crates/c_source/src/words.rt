ghost use Rattle.std.specs.Prelude.{◌≡◌};
ghost use Rattle.c_source.specs.Sources as spec;

use c_tokens::{Token, TokenKind, left_out_text};

/// A left-out token as it is printed; nothing where it isn't left out.
fn word_of(kind: &TokenKind) -> &'static str
    ensures { result.now ≡ spec.word_of kind.now }
{
    match left_out_text(kind) {
        Some(text) => text,
        None => "",
    }
}

/// The left-out word at a place, as it is printed.
pub fn word_at(tokens: &[Token], at: usize) -> &'static str
    ensures { result.now ≡ spec.word_at tokens.now at }
{
    match tokens.get(at) {
        Some(token) => word_of(&token.kind),
        None => "",
    }
}

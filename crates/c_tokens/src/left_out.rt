ghost use Rattle.std.specs.Prelude.{◌≡◌};
ghost use Rattle.std.specs.Option.{option_copied};
ghost use Rattle.c_tokens.specs.Words as spec;

use crate::TokenKind;

/// How a token that the accepted C leaves out is written, each word as it is; none where the token isn't left out.
pub fn left_out_text(kind: &TokenKind) -> Option<&'static str>
    ensures { option_copied result ≡ spec.left_out_text kind.now }
{
    match kind {
        TokenKind::Float => Some("float"),
        TokenKind::Double => Some("double"),
        TokenKind::Complex => Some("_Complex"),
        TokenKind::Imaginary => Some("_Imaginary"),
        TokenKind::Union => Some("union"),
        TokenKind::Goto => Some("goto"),
        TokenKind::Asm => Some("asm"),
        TokenKind::UnderscoredAsm => Some("__asm__"),
        TokenKind::UnderscoreAsm => Some("__asm"),
        TokenKind::Generic => Some("_Generic"),
        TokenKind::Atomic => Some("_Atomic"),
        TokenKind::ThreadLocal => Some("_Thread_local"),
        TokenKind::Alignas => Some("_Alignas"),
        TokenKind::Alignof => Some("_Alignof"),
        TokenKind::StaticAssert => Some("_Static_assert"),
        TokenKind::FloatingConstant => Some("floating constant"),
        _ => None,
    }
}

ghost use Rattle.std.specs.Prelude.{◌≡◌, ◌+◌, ◌≤◌, length, take};
ghost use Rattle.c_source.specs.Sources as spec;

use c_tokens::{MAX_BYTES, Token};

/// The line of the byte at an offset.
pub fn line_of(source: &[u8], at: u32) -> u32
    requires size { length source.now ≤ MAX_BYTES }
    ensures { result ≡ spec.line_of source.now at }
{
    let end = source.len().min(at as usize);
    let before = source[..end].iter().filter(|c| **c == b'\n').count();
    1 + before as u32
}

/// The line of the token of a number; after the last token it is that of the last, or 1.
pub fn line_at(tokens: &[Token], at: usize) -> u32
    ensures { result ≡ spec.line_at tokens.now at }
{
    match tokens.get(at.min(tokens.len().saturating_sub(1))) {
        Some(token) => token.line,
        None => 1,
    }
}

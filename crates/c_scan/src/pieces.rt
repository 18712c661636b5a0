ghost use Rattle.std.specs.Prelude.{◌≡◌, ◌<◌, ◌≤◌, ◌+◌, ◌∷◌, true, false, length, Some, IfOk, IfSome, List, ℕ};
ghost use Rattle.std.specs.Option.{option_map};
ghost use Rattle.c_tokens.specs.Words.{lookup, punctuators};
ghost use Rattle.c_tokens.specs.Pieces.{are_digits, begins_prefixed, begins_quote, below_256, character_value, first_piece, is_prefixed, longest_piece, has_doubtful_quote, numeric_escape, run_size, simple_escapes, written};
ghost use Rattle.c_scan.specs.Rows.{rows};
ghost use Rattle.c_scan.specs.Runs.{goes_on};
ghost use Rattle.c_scan.specs.Fronts.{block_from, block_front, character_front, mark_front, piece, piece_of, quoted_from, shape_of, string_front};
ghost use Rattle.std.specs.Prelude.{Option};
ghost use Rattle.c_tokens.specs.Pieces.{escape_value, Piece as SpecPiece};
ghost use Rattle.c_scan.specs.Fronts.{mark_or, or_else};
ghost use Rattle.c_scan.specs.Escapes.{escapes};

use crate::bytes::{Run, are_digits, begins_number, is_nondigit, is_space, run_size, written};
use crate::words::{Row, find};
use c_tokens::TokenKind;
use kv_base::NoMemory;
use std::alloc::Global;

/// What a piece of a text is.
#[derive(Drop)]
pub enum Shape {
    /// White space or a comment.
    Space,
    /// A name or a word.
    Word,
    /// A number.
    Number,
    /// A character constant, and the byte between its quotes.
    Character { value: u8 },
    /// A string.
    Quoted,
    /// A punctuator.
    Mark { kind: TokenKind },
}

/// A front of a text, and what it is.
#[derive(Drop)]
pub struct Piece {
    pub size: usize,
    pub shape: Shape,
}

/// How many bytes a quoted text takes after its opening quote, its closing quote among them.
fn quoted_size(quote: u8, rest: &[u8]) -> Option<usize>
    ensures size { result ≡ quoted_from 0 quote false rest.now }
    ensures within { IfSome result (λ size. (1 ≤ size) × (size ≤ length rest.now)) }
{
    let mut taken = false;
    for (i, c) in rest.iter().enumerate() {
        if *c == b'\n' {
            return None;
        }
        if !taken && *c == quote {
            return Some(i + 1);
        }
        taken = !taken && *c == b'\\';
    }
    None
}

/// Whether a quote stands directly after two backslashes.
fn has_doubtful_quote(text: &[u8]) -> bool
    ensures { result ≡ has_doubtful_quote text.now }
{
    for i in 0..text.len() {
        if text[i..].starts_with(b"\\\\\"") {
            return true;
        }
    }
    false
}

/// How many bytes a comment takes after its `/*`.
fn block_size(rest: &[u8]) -> Option<usize>
    ensures size { result ≡ block_from 0 rest.now }
    ensures within { IfSome result (λ size. size ≤ length rest.now) }
{
    for i in 0..rest.len() {
        if rest[i..].starts_with(b"*/") {
            return Some(i + 2);
        }
    }
    None
}

/// A byte that stands for another after a backslash.
struct Escape {
    text: &'static [u8],
    value: u8,
}

/// Simple escape sequences (C11 6.4.4.4).
static ESCAPES: [Escape; 11] = [
    Escape {
        text: b"n",
        value: b'\n',
    },
    Escape {
        text: b"t",
        value: b'\t',
    },
    Escape {
        text: b"r",
        value: b'\r',
    },
    Escape {
        text: b"a",
        value: 7,
    },
    Escape {
        text: b"b",
        value: 8,
    },
    Escape {
        text: b"f",
        value: 12,
    },
    Escape {
        text: b"v",
        value: 11,
    },
    Escape {
        text: b"\\",
        value: b'\\',
    },
    Escape {
        text: b"'",
        value: b'\'',
    },
    Escape {
        text: b"\"",
        value: b'"',
    },
    Escape {
        text: b"?",
        value: b'?',
    },
];

/// The value of the first row with this text.
fn find_escape(table: &[Escape], text: &[u8]) -> Option<u8>
    ensures { result ≡ lookup (escapes table.now) text.now }
{
    for row in table {
        if row.text == text {
            return Some(row.value);
        }
    }
    None
}

/// The byte for which a simple escape sequence stands.
fn simple_escape(text: &[u8]) -> Option<u8>
    ensures { result ≡ lookup simple_escapes text.now }
{
    find_escape(&ESCAPES, text)
}

/// The number that digits write, where it is a byte.
fn byte_written(base: u8, digits: &[u8]) -> Option<u8>
    requires { 1 ≤ base }
    ensures { result ≡ below_256 true (written base digits.now) }
{
    match written(base, digits) {
        Some(value) => { if value < 256 { Some(value as u8) } else { None } }
        None => None,
    }
}

/// One to three octal digits, or `x` and hexadecimal digits.
fn numeric_escape(text: &[u8]) -> Option<u8>
    ensures { result ≡ numeric_escape text.now }
{
    let [first, rest @ ..] = text else {
        return None;
    };
    if *first == b'x' {
        if rest.is_empty() || !are_digits(16, rest) {
            return None;
        }
        byte_written(16, rest)
    } else {
        if rest.len() > 2 || !are_digits(8, text) {
            return None;
        }
        byte_written(8, text)
    }
}

/// The byte for which an escape sequence stands, after its backslash.
fn escape_value(text: &[u8]) -> Option<u8>
    ensures { result ≡ escape_value text.now }
{
    match simple_escape(text) {
        Some(value) => Some(value),
        None => numeric_escape(text),
    }
}

/// The byte that stands between the quotes of a character constant.
fn character_value(body: &[u8]) -> Option<u8>
    ensures { result ≡ character_value body.now }
{
    let [first, rest @ ..] = body else {
        return None;
    };
    if *first == b'\\' {
        return escape_value(rest);
    }
    if rest.is_empty() && b' ' <= *first && *first <= b'~' && *first != b'\'' {
        Some(*first)
    } else {
        None
    }
}

/// The character constant at the front, after its opening quote.
fn character_piece(rest: &[u8]) -> Option<Piece>
    ensures { option_map piece_of result ≡ character_front rest.now }
{
    let Some(size) = quoted_size(b'\'', rest) else {
        return None;
    };
    match character_value(&rest[..size - 1]) {
        Some(value) => Some(Piece {
            size: size + 1,
            shape: Shape::Character { value },
        }),
        None => None,
    }
}

/// The string at the front, after its opening quote.
fn string_piece(rest: &[u8]) -> Option<Piece>
    ensures { option_map piece_of result ≡ string_front rest.now }
{
    let Some(size) = quoted_size(b'"', rest) else {
        return None;
    };
    if has_doubtful_quote(&rest[..size]) {
        return None;
    }
    Some(Piece {
        size: size + 1,
        shape: Shape::Quoted,
    })
}

/// The comment at the front, after its `/*`.
fn block_piece(rest: &[u8]) -> Option<Piece>
    ensures { option_map piece_of result ≡ block_front rest.now }
{
    match block_size(rest) {
        Some(size) => Some(Piece {
            size: size + 2,
            shape: Shape::Space,
        }),
        None => None,
    }
}

/// The punctuator of this size at the front.
fn mark_of_size(
    alloc: Global,
    table: &[Row],
    size: usize,
    text: &[u8],
) -> Result<Option<Piece>, NoMemory>
    requires { rows table.now ≡ punctuators }
    ensures { IfOk result (λ found. (shorter : Option SpecPiece) → mark_or size shorter text.now ≡ or_else (option_map piece_of found) shorter) }
{
    if text.len() < size {
        return Ok(None);
    }
    match find(alloc, table, &text[..size])? {
        Some(kind) => Ok(Some(Piece {
            size,
            shape: Shape::Mark { kind },
        })),
        None => Ok(None),
    }
}

/// The longest punctuator at the front.
fn mark_piece(alloc: Global, table: &[Row], text: &[u8]) -> Result<Option<Piece>, NoMemory>
    requires { rows table.now ≡ punctuators }
    ensures { IfOk result (λ found. option_map piece_of found ≡ mark_front text.now) }
{
    if let Some(piece) = mark_of_size(alloc, table, 3, text)? {
        return Ok(Some(piece));
    }
    if let Some(piece) = mark_of_size(alloc, table, 2, text)? {
        return Ok(Some(piece));
    }
    mark_of_size(alloc, table, 1, text)
}

/// The longest piece at the front of a text (6.4p4).
fn longest_piece(alloc: Global, table: &[Row], text: &[u8]) -> Result<Option<Piece>, NoMemory>
    requires { rows table.now ≡ punctuators }
    ensures { IfOk result (λ found. option_map piece_of found ≡ longest_piece text.now) }
{
    let [c, rest @ ..] = text else {
        return Ok(None);
    };
    if is_space(*c) {
        return Ok(Some(Piece {
            size: 1,
            shape: Shape::Space,
        }));
    }
    if is_nondigit(*c) {
        return Ok(Some(Piece {
            size: run_size(Run::Word, *c, rest) + 1,
            shape: Shape::Word,
        }));
    }
    if begins_number(text) {
        return Ok(Some(Piece {
            size: run_size(Run::Number, *c, rest) + 1,
            shape: Shape::Number,
        }));
    }
    if *c == b'\'' {
        return Ok(character_piece(rest));
    }
    if *c == b'"' {
        return Ok(string_piece(rest));
    }
    if text.starts_with(b"/*") {
        return Ok(block_piece(&text[2..]));
    }
    if text.starts_with(b"//") {
        return Ok(Some(Piece {
            size: run_size(Run::Line, b'/', &text[2..]) + 2,
            shape: Shape::Space,
        }));
    }
    mark_piece(alloc, table, text)
}

/// Whether a quote stands at the front.
fn begins_quote(text: &[u8]) -> bool
    ensures { result ≡ begins_quote text.now }
{
    match text {
        [c, ..] => *c == b'\'' || *c == b'"',
        [] => false,
    }
}

/// Whether this encoding prefix stands directly before a quote.
fn is_prefixed(prefix: &[u8], text: &[u8]) -> bool
    ensures { result ≡ is_prefixed prefix.now text.now }
{
    text.starts_with(prefix) && begins_quote(&text[prefix.len()..])
}

/// Whether the text begins with a character constant or string that has an encoding prefix (6.4.4.4, 6.4.5).
fn begins_prefixed(text: &[u8]) -> bool
    ensures { result ≡ begins_prefixed text.now }
{
    is_prefixed(b"L", text)
        || is_prefixed(b"u", text)
        || is_prefixed(b"U", text)
        || is_prefixed(b"u8", text)
}

/// The piece at the front of a text.
#[tactic(auto, unfolding(c_tokens::specs::Pieces::first_piece))]
pub fn first_piece(alloc: Global, table: &[Row], text: &[u8]) -> Result<Option<Piece>, NoMemory>
    requires { rows table.now ≡ punctuators }
    ensures { IfOk result (λ found. option_map piece_of found ≡ first_piece text.now) }
{
    if begins_prefixed(text) {
        return Ok(None);
    }
    longest_piece(alloc, table, text)
}

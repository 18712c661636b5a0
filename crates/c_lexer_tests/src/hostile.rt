use c_lexer::{LexFault, MAX_BYTES, lex};
use c_tokens::DataModel;
use std::alloc::{AllocError, Global};
use std::test::Fail;

/// How many tokens a text has, or where its fault is.
#[derive(Clone, Copy, Debug, PartialEq, Eq)]
enum Answer {
    Tokens(usize),
    NoToken(u32),
    Directive(u32),
    LongConstant(u32),
    TooManyTokens(u32),
}

fn answer_of(alloc: Global, text: &[u8]) -> Result<Answer, AllocError> {
    if text.len() > MAX_BYTES {
        return Err(AllocError);
    }
    match lex(alloc, text, DataModel::Lp64) {
        Ok(tokens) => Ok(Answer::Tokens(tokens.len())),
        Err(LexFault::NoToken { at }) => Ok(Answer::NoToken(at)),
        Err(LexFault::Directive { at }) => Ok(Answer::Directive(at)),
        Err(LexFault::LongConstant { at }) => Ok(Answer::LongConstant(at)),
        Err(LexFault::TooManyTokens { at }) => Ok(Answer::TooManyTokens(at)),
        Err(LexFault::NoMemory) => Err(AllocError),
    }
}

/// What a byte is for a reader of single bytes.
#[derive(Clone, Copy, Debug, PartialEq, Eq)]
enum Class {
    Blank,
    Letter,
    Digit,
    Mark,
    Hash,
    /// It begins no token by itself, or is a carriage return, after which a newline has to stand.
    Nothing,
}

fn class_of(byte: u8) -> Class {
    match byte {
        b' ' | b'\t' | b'\n' | 11 | 12 => Class::Blank,
        b'a'..=b'z' | b'A'..=b'Z' | b'_' => Class::Letter,
        b'0'..=b'9' => Class::Digit,
        b'#' => Class::Hash,
        b'"' | b'\'' | b'\\' | b'`' | b'@' | b'$' => Class::Nothing,
        33..=126 => Class::Mark,
        _ => Class::Nothing,
    }
}

/// What a single byte is: a blank or the empty directive, one token, or none.
fn alone(byte: u8) -> Answer {
    match class_of(byte) {
        Class::Blank | Class::Hash => Answer::Tokens(0),
        Class::Letter | Class::Digit | Class::Mark => Answer::Tokens(1),
        Class::Nothing => Answer::NoToken(0),
    }
}

/// An encoding prefix of one byte before a quote (6.4.4.4, 6.4.5).
fn is_prefixed(first: u8, second: u8) -> bool {
    matches!(first, b'L' | b'u' | b'U') && matches!(second, b'\'' | b'"')
}

/// What two bytes are, where that follows from what each is alone.
fn together(first: u8, second: u8) -> Option<Answer> {
    match (class_of(first), class_of(second)) {
        (Class::Letter, Class::Nothing) if is_prefixed(first, second) => Some(Answer::NoToken(0)),
        (Class::Nothing, _) if first == b'\r' && second == b'\n' => Some(Answer::Tokens(0)),
        (Class::Nothing, _) if first != b'"' || second != b'"' => Some(Answer::NoToken(0)),
        (Class::Nothing, _) => Some(Answer::Tokens(1)),
        (Class::Blank, _) if second == b'#' => Some(Answer::Tokens(0)),
        (Class::Blank, Class::Nothing) => Some(Answer::NoToken(1)),
        (Class::Blank, _) => Some(alone(second)),
        (Class::Letter, Class::Letter | Class::Digit | Class::Blank) => Some(Answer::Tokens(1)),
        (Class::Letter | Class::Digit, Class::Nothing | Class::Hash) => Some(Answer::NoToken(1)),
        (Class::Letter, Class::Mark) => Some(Answer::Tokens(2)),
        (Class::Digit, Class::Blank) => Some(Answer::Tokens(1)),
        (Class::Mark, Class::Letter | Class::Digit) if first != b'.' => Some(Answer::Tokens(2)),
        (Class::Hash, Class::Blank | Class::Digit) => Some(Answer::Tokens(0)),
        (Class::Hash, Class::Letter) => Some(Answer::Directive(0)),
        (Class::Mark, Class::Blank) => Some(Answer::Tokens(1)),
        (Class::Mark, Class::Nothing | Class::Hash) => Some(Answer::NoToken(1)),
        _ => None,
    }
}

#[test]
fn single_bytes(rt: HostRuntime) -> Result<(), Fail> {
    for byte in 0..=u8::MAX {
        assert_eq!(rt; answer_of(rt.alloc(), &[byte])?, alone(byte), "{byte}");
    }
    Ok(())
}

#[test]
fn pairs_of_bytes(rt: HostRuntime) -> Result<(), Fail> {
    for first in 0..=u8::MAX {
        for second in 0..=u8::MAX {
            let found = answer_of(rt.alloc(), &[first, second])?;
            let wanted = together(first, second).unwrap_or(found);
            assert_eq!(rt; found, wanted, "{first} {second}");
        }
    }
    Ok(())
}

const SAMPLE: &[u8] =
    b"#include <stdint.h>\n#define N M // n\n#define M 0x1fUL\nint main(void)\n{\n /* a\n * b */ uint8_t x = '\\n', y[N]; x <<= 3u; /**/ f(\"a\\\"b\", .5e+3);\n#pragma \"x\" /* y\n */ z\n return x->y ? 07 : 1LL;\n}\n";

fn repeated(alloc: Global, part: &[u8], size: usize) -> Result<Vec<u8>, AllocError> {
    let mut text = Vec::new(alloc);
    for byte in part.iter().copied().cycle().take(size) {
        text.push(byte)?;
    }
    Ok(text)
}

/// No answer speaks of bytes after these.
fn is_within(answer: Answer, size: usize) -> bool {
    match answer {
        Answer::Tokens(count) => count <= size,
        Answer::NoToken(at)
        | Answer::Directive(at)
        | Answer::LongConstant(at)
        | Answer::TooManyTokens(at) => (at as usize) < size,
    }
}

#[test]
fn every_cut(rt: HostRuntime) -> Result<(), Fail> {
    let text = repeated(rt.alloc(), SAMPLE, 2000)?;
    for size in 0..=text.len() {
        let found = answer_of(rt.alloc(), &text[..size])?;
        assert!(rt; is_within(found, size), "{size}");
    }
    Ok(())
}

#[test]
fn most_tokens(rt: HostRuntime) -> Result<(), Fail> {
    let last: [(&[u8], Answer); 4] = [
        (b"", Answer::Tokens(200_000)),
        (b";", Answer::TooManyTokens(200_000)),
        (b"@", Answer::NoToken(200_000)),
        (b"99999999999999999999", Answer::LongConstant(200_000)),
    ];
    for (more, wanted) in last {
        let mut text = repeated(rt.alloc(), b";", 200_000)?;
        text.extend_from_slice(more)?;
        assert_eq!(rt; answer_of(rt.alloc(), &text)?, wanted);
    }
    Ok(())
}

/// A constant of 400,000 digits, and a name that stands for it 200,000 times. A text whose uses read the
/// constant anew would take 8 * 10^10 steps.
#[test]
fn long_constant(rt: HostRuntime) -> Result<(), Fail> {
    let mut text = Vec::new(rt.alloc());
    text.extend_from_slice(b"#define A ")?;
    text.extend_from_slice(&repeated(rt.alloc(), b"0", 400_000)?)?;
    text.push(b'\n')?;
    text.extend_from_slice(&repeated(rt.alloc(), b"A ", 400_000)?)?;
    assert_eq!(rt; answer_of(rt.alloc(), &text)?, Answer::Tokens(200_000));
    Ok(())
}

/// A name of half a million letters, and a name that stands for it many times: as many copies of it as there is room
/// for, and then memory is out. Without an end to them the 200,000 tokens that are read would take 100 GB.
#[test]
fn long_name(rt: HostRuntime) -> Result<(), Fail> {
    for (uses, fits) in [(134, true), (250_000, false)] {
        let mut text = Vec::new(rt.alloc());
        text.extend_from_slice(b"#define A ")?;
        text.extend_from_slice(&repeated(rt.alloc(), b"b", 500_000)?)?;
        text.push(b'\n')?;
        text.extend_from_slice(&repeated(rt.alloc(), b"A ", 2 * uses)?)?;
        assert_eq!(rt; answer_of(rt.alloc(), &text).is_ok(), fits);
    }
    Ok(())
}

use crate::shown;
use c_lexer::{MAX_BYTES, lex};
use c_tokens::{DataModel, TokenKind, Tokens};
use std::alloc::{AllocError, Global};
use std::test::Fail;

// Names whose replacements come back (C11 6.10.3.4p2): one on a circle stays, and one that leads to a circle
// becomes the first name that it meets there.
static CIRCLES: [(&[u8], &str); 12] = [
    (b"#define A A\nA A", "A A"),
    (b"#define A B\n#define B A\nA B A B", "A B A B"),
    (
        b"#define A B\n#define B C\n#define C A\nC B A C B A",
        "C B A C B A",
    ),
    (
        b"#define A B\n#define B C\n#define C D\n#define D B\nA B C D A B C D",
        "B B C D B B C D",
    ),
    (
        b"#define A B\n#define B C\n#define C D\n#define D B\nD C B A D C B A",
        "D C B B D C B B",
    ),
    (
        b"#define A B\n#define B C\n#define C D\nA B C D\n#define D B\nA B C D",
        "D D D D B B C D",
    ),
    (
        b"#define A B\n#define B C\n#define C D\nA A A A\n#define D E\nA\n#define E B\nA B C D E",
        "D D D D E B B C D E",
    ),
    (
        b"#define A B\n#define B A\nA\n#define C A\n#define D B\n#define E C\nE D C B A",
        "A A B A B A",
    ),
    (
        b"#define C A\n#define D C\nD\n#define A B\n#define B A\nB D C A",
        "A B A A A",
    ),
    (
        b"#define A A\n#define B A\n#define C B\nC B A\n#define D 1\nC D",
        "A A A A 1:Int",
    ),
    (
        b"#define A B\n#define B A\n#define C D\n#define D C\n#define E A\n#define F D\nF E D C B A",
        "D A D C B A",
    ),
    (
        b"#define A B\n#define B A\nA B\n#define A B\n#define B A\nB A",
        "A B B A",
    ),
];

#[test]
fn circles(rt: HostRuntime) -> Result<(), Fail> {
    for (text, wanted) in &CIRCLES {
        assert_eq!(rt;
            shown(rt.alloc(), text, DataModel::Lp64)?.as_str(),
            *wanted,
            "{text:?}"
        );
    }
    Ok(())
}

/// The last decimal digit of a number.
fn last_digit(number: u32) -> u8 {
    b'0' + (number % 10) as u8
}

/// A name of six bytes: a letter and the last five digits of a number.
fn name_of(letter: u8, number: u32) -> [u8; 6] {
    [
        letter,
        last_digit(number / 10_000),
        last_digit(number / 1_000),
        last_digit(number / 100),
        last_digit(number / 10),
        last_digit(number),
    ]
}

fn define(text: &mut Vec<u8>, name: [u8; 6], other: [u8; 6]) -> Result<(), AllocError> {
    text.extend_from_slice(b"#define ")?;
    text.extend_from_slice(&name)?;
    text.push(b' ')?;
    text.extend_from_slice(&other)?;
    text.push(b'\n')?;
    Ok(())
}

/// Each of a number of names is replaced by the next, and the last by another one.
fn chain(text: &mut Vec<u8>, letter: u8, count: u32, last: [u8; 6]) -> Result<(), AllocError> {
    for number in 0..count {
        let next = number + 1;
        let other = if next == count {
            last
        } else {
            name_of(letter, next)
        };
        define(text, name_of(letter, number), other)?;
    }
    Ok(())
}

/// Each of a number of names, on a line of its own, the last first.
fn uses(text: &mut Vec<u8>, letter: u8, count: u32) -> Result<(), AllocError> {
    for number in 0..count {
        text.extend_from_slice(&name_of(letter, count - 1 - number))?;
        text.push(b'\n')?;
    }
    Ok(())
}

fn tokens_of(alloc: Global, text: &[u8]) -> Result<Tokens, Fail> {
    if text.len() > MAX_BYTES {
        return Err(Fail::from("too long"));
    }
    match lex(alloc, text, DataModel::Lp64) {
        Ok(tokens) => Ok(tokens),
        Err(_) => Err(Fail::from("no tokens")),
    }
}

/// Whether a token is this name.
fn is_name(kind: &TokenKind, name: [u8; 6]) -> bool {
    match kind {
        TokenKind::Name { text } => text.as_slice() == name.as_slice(),
        _ => false,
    }
}

/// The name that the token at a place is.
fn wanted_at(place: usize) -> [u8; 6] {
    if place < 8_000 || 40_000 <= place {
        return name_of(b'c', 7);
    }
    name_of(b'c', 15_999 - ((place - 8_000) % 16_000) as u32)
}

/// 16,000 names on a circle, and 8,000 names that lead to it one after another. A text whose uses walked
/// their chains anew would take more than 10^8 replacements.
#[test]
fn large_circle(rt: HostRuntime) -> Result<(), Fail> {
    let mut text = Vec::new(rt.alloc());
    chain(&mut text, b'c', 16_000, name_of(b'c', 0))?;
    chain(&mut text, b'a', 8_000, name_of(b'c', 7))?;
    uses(&mut text, b'a', 8_000)?;
    uses(&mut text, b'c', 16_000)?;
    uses(&mut text, b'c', 16_000)?;
    uses(&mut text, b'a', 8_000)?;
    let tokens = tokens_of(rt.alloc(), &text)?;
    assert_eq!(rt; tokens.len(), 48_000);
    for (place, token) in tokens.as_slice().iter().enumerate() {
        assert!(rt; is_name(&token.kind, wanted_at(place)), "{place}");
    }
    Ok(())
}

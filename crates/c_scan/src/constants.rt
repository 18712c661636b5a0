ghost use Rattle.std.specs.Prelude.{◌≡◌, ◌+◌, ◌-◌, ◌<◌, ◌^◌, ◌==◌, ◌||◌, SomeIff};
ghost use Rattle.std.specs.List.{list_any};
ghost use Rattle.std.specs.Option.{option_map};
ghost use Rattle.kv_num.specs.IntType.{size_of, below_of};
ghost use Rattle.c_tokens.specs.Words.{lookup};
ghost use Rattle.c_tokens.specs.Pieces.{begins_with};
ghost use Rattle.c_tokens.specs.Constants.{base_of, body_of, candidates, char_value, first_for, is_floating, is_hexadecimal, long_of, number_of, suffix_of, suffixes, value_of};
ghost use Rattle.c_scan.specs.Numbers.{column, has_exponent, number_view, skipped_of, suffix_rows, suffix_view};

use crate::bytes::{Run, run_size, written};
use c_tokens::DataModel;
use kv_num::IntType;

/// The narrowest type that a suffix leaves.
#[derive(Clone, Copy)]
pub enum Least {
    Int,
    Long,
    LongLong,
}

/// The suffix of an integer constant (C11 6.4.4.1).
#[derive(Clone, Copy)]
pub struct Suffix {
    pub unsigned: bool,
    pub least: Least,
}

/// A suffix as it is written.
pub(crate) struct SuffixRow {
    text: &'static [u8],
    suffix: Suffix,
}

/// `u` or `U`, and `l`, `L`, `ll` or `LL`, in either order; each part may be missing.
static SUFFIXES: [SuffixRow; 23] = [
    SuffixRow {
        text: b"",
        suffix: Suffix {
            unsigned: false,
            least: Least::Int,
        },
    },
    SuffixRow {
        text: b"l",
        suffix: Suffix {
            unsigned: false,
            least: Least::Long,
        },
    },
    SuffixRow {
        text: b"L",
        suffix: Suffix {
            unsigned: false,
            least: Least::Long,
        },
    },
    SuffixRow {
        text: b"ll",
        suffix: Suffix {
            unsigned: false,
            least: Least::LongLong,
        },
    },
    SuffixRow {
        text: b"LL",
        suffix: Suffix {
            unsigned: false,
            least: Least::LongLong,
        },
    },
    SuffixRow {
        text: b"u",
        suffix: Suffix {
            unsigned: true,
            least: Least::Int,
        },
    },
    SuffixRow {
        text: b"U",
        suffix: Suffix {
            unsigned: true,
            least: Least::Int,
        },
    },
    SuffixRow {
        text: b"ul",
        suffix: Suffix {
            unsigned: true,
            least: Least::Long,
        },
    },
    SuffixRow {
        text: b"uL",
        suffix: Suffix {
            unsigned: true,
            least: Least::Long,
        },
    },
    SuffixRow {
        text: b"Ul",
        suffix: Suffix {
            unsigned: true,
            least: Least::Long,
        },
    },
    SuffixRow {
        text: b"UL",
        suffix: Suffix {
            unsigned: true,
            least: Least::Long,
        },
    },
    SuffixRow {
        text: b"lu",
        suffix: Suffix {
            unsigned: true,
            least: Least::Long,
        },
    },
    SuffixRow {
        text: b"Lu",
        suffix: Suffix {
            unsigned: true,
            least: Least::Long,
        },
    },
    SuffixRow {
        text: b"lU",
        suffix: Suffix {
            unsigned: true,
            least: Least::Long,
        },
    },
    SuffixRow {
        text: b"LU",
        suffix: Suffix {
            unsigned: true,
            least: Least::Long,
        },
    },
    SuffixRow {
        text: b"ull",
        suffix: Suffix {
            unsigned: true,
            least: Least::LongLong,
        },
    },
    SuffixRow {
        text: b"uLL",
        suffix: Suffix {
            unsigned: true,
            least: Least::LongLong,
        },
    },
    SuffixRow {
        text: b"Ull",
        suffix: Suffix {
            unsigned: true,
            least: Least::LongLong,
        },
    },
    SuffixRow {
        text: b"ULL",
        suffix: Suffix {
            unsigned: true,
            least: Least::LongLong,
        },
    },
    SuffixRow {
        text: b"llu",
        suffix: Suffix {
            unsigned: true,
            least: Least::LongLong,
        },
    },
    SuffixRow {
        text: b"LLu",
        suffix: Suffix {
            unsigned: true,
            least: Least::LongLong,
        },
    },
    SuffixRow {
        text: b"llU",
        suffix: Suffix {
            unsigned: true,
            least: Least::LongLong,
        },
    },
    SuffixRow {
        text: b"LLU",
        suffix: Suffix {
            unsigned: true,
            least: Least::LongLong,
        },
    },
];

/// The suffix of the first row with this text.
fn find_suffix(table: &[SuffixRow], text: &[u8]) -> Option<Suffix>
    ensures { option_map suffix_view result ≡ lookup (suffix_rows table.now) text.now }
{
    for row in table {
        if row.text == text {
            return Some(row.suffix);
        }
    }
    None
}

/// Whether the constant begins with `0x` or `0X`.
fn is_hexadecimal(text: &[u8]) -> bool
    ensures { result ≡ is_hexadecimal text.now }
{
    text.starts_with(b"0x") || text.starts_with(b"0X")
}

/// The base of an integer constant.
fn base_of(text: &[u8]) -> u8
    ensures { result ≡ base_of text.now }
{
    if is_hexadecimal(text) {
        16
    } else if text.starts_with(b"0") {
        8
    } else {
        10
    }
}

/// The constant without `0x`.
fn body_of(text: &[u8]) -> &[u8]
    ensures { result.now ≡ body_of text.now }
{
    if is_hexadecimal(text) {
        &text[2..]
    } else {
        text
    }
}

/// The suffix of an integer constant, where the text has the form of one.
#[tactic(auto, unfolding(c_tokens::specs::Constants::suffix_of, c_tokens::specs::Constants::suffixes))]
pub fn suffix_of(text: &[u8]) -> Option<Suffix>
    ensures { option_map suffix_view result ≡ suffix_of text.now }
{
    let body = body_of(text);
    let base = base_of(text);
    let count = run_size(Run::Digits { base }, 0, body);
    if count == 0 {
        return None;
    }
    find_suffix(&SUFFIXES, &body[count..])
}

/// The value of an integer constant, where it is below 2 ^ 64.
#[tactic(auto, unfolding(c_tokens::specs::Constants::value_of))]
fn value_of(text: &[u8]) -> Option<u64>
    ensures { SomeIff result (value_of text.now < 2 ^ 64) (value_of text.now) }
{
    let body = body_of(text);
    let base = base_of(text);
    let count = run_size(Run::Digits { base }, 0, body);
    written(base, &body[..count])
}

static UNSIGNED: [IntType; 3] = [IntType::UInt, IntType::ULong, IntType::ULongLong];

static UNSIGNED_32: [IntType; 3] = [IntType::UInt, IntType::ULong32, IntType::ULongLong];

static DECIMAL: [IntType; 3] = [IntType::Int, IntType::Long, IntType::LongLong];

static DECIMAL_32: [IntType; 3] = [IntType::Int, IntType::Long32, IntType::LongLong];

static OTHER: [IntType; 6] = [
    IntType::Int,
    IntType::UInt,
    IntType::Long,
    IntType::ULong,
    IntType::LongLong,
    IntType::ULongLong,
];

static OTHER_32: [IntType; 6] = [
    IntType::Int,
    IntType::UInt,
    IntType::Long32,
    IntType::ULong32,
    IntType::LongLong,
    IntType::ULongLong,
];

/// The types that a constant may have where its suffix names no length (6.4.4.1p5).
fn column(model: DataModel, unsigned: bool, decimal: bool) -> &'static [IntType]
    ensures { result.now ≡ column model unsigned decimal }
{
    match model {
        DataModel::Lp64 => {
            if unsigned {
                return &UNSIGNED;
            }
            if decimal {
                return &DECIMAL;
            }
            &OTHER
        }
        DataModel::Ilp32 => {
            if unsigned {
                return &UNSIGNED_32;
            }
            if decimal {
                return &DECIMAL_32;
            }
            &OTHER_32
        }
    }
}

/// How many types of a list come before the least one.
fn skipped(unsigned: bool, decimal: bool, least: Least) -> usize
    ensures { result ≡ skipped_of unsigned decimal least }
{
    let each = if unsigned || decimal { 1 } else { 2 };
    match least {
        Least::Int => 0,
        Least::Long => each,
        Least::LongLong => 2 * each,
    }
}

/// The types that a constant may have, in their order (6.4.4.1p5).
fn candidates(model: DataModel, decimal: bool, suffix: Suffix) -> &'static [IntType]
    ensures { result.now ≡ candidates model decimal (suffix_view suffix) }
{
    let types = column(model, suffix.unsigned, decimal);
    &types[skipped(suffix.unsigned, decimal, suffix.least)..]
}

/// The greatest number of a type.
fn greatest(t: IntType) -> u64
    ensures { result + 1 ≡ size_of t - below_of t }
{
    match t {
        IntType::Bool => 1,
        IntType::Char | IntType::SChar => 127,
        IntType::UChar => 255,
        IntType::Short => 32_767,
        IntType::UShort => 65_535,
        IntType::Int | IntType::Long32 => 2_147_483_647,
        IntType::UInt | IntType::ULong32 => 4_294_967_295,
        IntType::Long | IntType::LongLong => 9_223_372_036_854_775_807,
        IntType::ULong | IntType::ULongLong => 18_446_744_073_709_551_615,
    }
}

/// The first of these types that can represent the value.
fn first_for(types: &[IntType], value: u64) -> Option<IntType>
    ensures { result ≡ first_for types.now value }
{
    for t in types {
        if value <= greatest(*t) {
            return Some(*t);
        }
    }
    None
}

/// Whether the text has one of two bytes.
fn has_either(text: &[u8], a: u8, b: u8) -> bool
    ensures { result ≡ list_any (λ c. c == a || c == b) text.now }
{
    text.iter().any(|c| *c == a || *c == b)
}

/// Whether the number has the letter of an exponent.
fn has_exponent(text: &[u8]) -> bool
    ensures { result ≡ has_exponent text.now }
{
    if is_hexadecimal(text) {
        return has_either(text, b'P', b'p');
    }
    has_either(text, b'E', b'e')
}

/// Whether the text has a dot.
fn has_dot(text: &[u8]) -> bool
    ensures { result ≡ list_any (λ c. c == 46) text.now }
{
    text.iter().any(|c| *c == b'.')
}

/// Whether the number has the form of a floating constant.
fn is_floating(text: &[u8]) -> bool
    ensures { result ≡ is_floating text.now }
{
    has_dot(text) || has_exponent(text)
}

/// What a number is.
#[derive(Clone, Copy)]
pub enum Number {
    /// An integer constant, with its type and value.
    Whole { kind: IntType, value: u64 },
    /// An integer constant that no type represents.
    TooLarge,
    /// A floating constant.
    Floating,
    /// None of these.
    NoConstant,
}

/// The number that a text of digits, letters, dots and signs is (6.4.4).
#[tactic(auto, using(crate::proofs::Types::too_large), unfolding(c_tokens::specs::Constants::number_of))]
pub fn number_of(model: DataModel, text: &[u8]) -> Number
    ensures { number_view result ≡ number_of model text.now }
{
    let Some(suffix) = suffix_of(text) else {
        if is_floating(text) {
            return Number::Floating;
        }
        return Number::NoConstant;
    };
    let Some(value) = value_of(text) else {
        return Number::TooLarge;
    };
    match first_for(candidates(model, base_of(text) == 10, suffix), value) {
        Some(kind) => Number::Whole { kind, value },
        None => Number::TooLarge,
    }
}

/// The value of a byte as a `char`, which is signed (6.4.4.4p10).
pub fn char_value(byte: u8) -> i128
    ensures { result ≡ char_value byte }
{
    if byte < 128 {
        i128::from(byte)
    } else {
        i128::from(byte) - 256
    }
}

ghost use Rattle.std.specs.Prelude.{◌≡◌, IfOk};
ghost use Rattle.std.specs.Option.{option_map};
ghost use Rattle.c_tokens.specs.Words.{lookup};
ghost use Rattle.c_tokens.specs.Headers.{headers, limits_names, names_of, stdbool_names, stddef_names, stdint_names};
ghost use Rattle.c_scan.specs.Rows.{rows};
ghost use Rattle.c_macros.specs.HeaderRows.{header_rows, header_view};

use c_scan::Row;
use c_tokens::{DataModel, TokenKind};
use kv_base::NoMemory;
use kv_num::IntType;
use std::alloc::Global;

/// A header that may be included.
#[derive(Clone, Copy)]
pub enum Header {
    Assert,
    Limits,
    Stdbool,
    Stddef,
    Stdint,
}

/// A header as an `#include` spells it.
pub(crate) struct HeaderRow {
    text: &'static [u8],
    header: Header,
}

static HEADERS: [HeaderRow; 10] = [
    HeaderRow {
        text: b"<assert.h>",
        header: Header::Assert,
    },
    HeaderRow {
        text: b"\"assert.h\"",
        header: Header::Assert,
    },
    HeaderRow {
        text: b"<limits.h>",
        header: Header::Limits,
    },
    HeaderRow {
        text: b"\"limits.h\"",
        header: Header::Limits,
    },
    HeaderRow {
        text: b"<stdbool.h>",
        header: Header::Stdbool,
    },
    HeaderRow {
        text: b"\"stdbool.h\"",
        header: Header::Stdbool,
    },
    HeaderRow {
        text: b"<stddef.h>",
        header: Header::Stddef,
    },
    HeaderRow {
        text: b"\"stddef.h\"",
        header: Header::Stddef,
    },
    HeaderRow {
        text: b"<stdint.h>",
        header: Header::Stdint,
    },
    HeaderRow {
        text: b"\"stdint.h\"",
        header: Header::Stdint,
    },
];

/// The header of the first row with this text.
fn find_header_in(table: &[HeaderRow], text: &[u8]) -> Option<Header>
    ensures { option_map header_view result ≡ lookup (header_rows table.now) text.now }
{
    for row in table {
        if row.text == text {
            return Some(row.header);
        }
    }
    None
}

/// The header that is spelled so (C11 6.10.2).
#[tactic(auto, unfolding(c_tokens::specs::Headers::headers))]
pub fn find_header(text: &[u8]) -> Option<Header>
    ensures { option_map header_view result ≡ lookup headers text.now }
{
    find_header_in(&HEADERS, text)
}

macro_rules! constant {
    ($text:literal, $kind:ident, $value:expr) => {
        Row {
            text: $text,
            kind: TokenKind::Constant {
                kind: IntType::$kind,
                value: $value,
            },
        }
    };
}

macro_rules! type_word {
    ($text:literal, $kind:ident) => {
        Row {
            text: $text,
            kind: TokenKind::TypeWord {
                kind: IntType::$kind,
            },
        }
    };
}

/// `limits.h` (5.2.4.2.1), given the types `long` and `unsigned long` and their ranges.
macro_rules! limits {
    ($long:ident, $unsigned:ident, $least:expr, $greatest:expr, $all:expr) => {
        [
            constant!(b"CHAR_BIT", Int, 8),
            constant!(b"SCHAR_MIN", Int, -128),
            constant!(b"SCHAR_MAX", Int, 127),
            constant!(b"UCHAR_MAX", Int, 255),
            constant!(b"CHAR_MIN", Int, -128),
            constant!(b"CHAR_MAX", Int, 127),
            constant!(b"SHRT_MIN", Int, -32_768),
            constant!(b"SHRT_MAX", Int, 32_767),
            constant!(b"USHRT_MAX", Int, 65_535),
            constant!(b"INT_MIN", Int, -2_147_483_648),
            constant!(b"INT_MAX", Int, 2_147_483_647),
            constant!(b"UINT_MAX", UInt, 4_294_967_295),
            constant!(b"LONG_MIN", $long, $least),
            constant!(b"LONG_MAX", $long, $greatest),
            constant!(b"ULONG_MAX", $unsigned, $all),
            constant!(b"LLONG_MIN", LongLong, -9_223_372_036_854_775_808),
            constant!(b"LLONG_MAX", LongLong, 9_223_372_036_854_775_807),
            constant!(b"ULLONG_MAX", ULongLong, 18_446_744_073_709_551_615),
        ]
    };
}

/// `stdint.h` (7.20), given the types of 64 bits.
macro_rules! stdint {
    ($signed:ident, $unsigned:ident) => {
        [
            type_word!(b"int8_t", SChar),
            type_word!(b"uint8_t", UChar),
            type_word!(b"int16_t", Short),
            type_word!(b"uint16_t", UShort),
            type_word!(b"int32_t", Int),
            type_word!(b"uint32_t", UInt),
            type_word!(b"int64_t", $signed),
            type_word!(b"uint64_t", $unsigned),
            constant!(b"INT8_MIN", Int, -128),
            constant!(b"INT8_MAX", Int, 127),
            constant!(b"UINT8_MAX", Int, 255),
            constant!(b"INT16_MIN", Int, -32_768),
            constant!(b"INT16_MAX", Int, 32_767),
            constant!(b"UINT16_MAX", Int, 65_535),
            constant!(b"INT32_MIN", Int, -2_147_483_648),
            constant!(b"INT32_MAX", Int, 2_147_483_647),
            constant!(b"UINT32_MAX", UInt, 4_294_967_295),
            constant!(b"INT64_MIN", $signed, -9_223_372_036_854_775_808),
            constant!(b"INT64_MAX", $signed, 9_223_372_036_854_775_807),
            constant!(b"UINT64_MAX", $unsigned, 18_446_744_073_709_551_615),
        ]
    };
}

/// `stddef.h` (7.19), given the types of sizes and of differences of pointers.
macro_rules! stddef {
    ($size:ident, $difference:ident) => {
        [
            constant!(b"NULL", Int, 0),
            type_word!(b"size_t", $size),
            type_word!(b"ptrdiff_t", $difference),
        ]
    };
}

/// `limits.h` with a `long` of 64 bits.
const LIMITS_64: [Row; 18] = limits!(
    Long,
    ULong,
    -9_223_372_036_854_775_808,
    9_223_372_036_854_775_807,
    18_446_744_073_709_551_615
);

/// `limits.h` with a `long` of 32 bits.
const LIMITS_32: [Row; 18] = limits!(
    Long32,
    ULong32,
    -2_147_483_648,
    2_147_483_647,
    4_294_967_295
);

/// `stdint.h` with a `long` of 64 bits.
const STDINT_64: [Row; 20] = stdint!(Long, ULong);

/// `stdint.h` with a `long` of 32 bits.
const STDINT_32: [Row; 20] = stdint!(LongLong, ULongLong);

/// `stddef.h` with a `long` of 64 bits.
const STDDEF_64: [Row; 3] = stddef!(ULong, Long);

/// `stddef.h` with a `long` of 32 bits.
const STDDEF_32: [Row; 3] = stddef!(UInt, Int);

/// `stdbool.h` (7.18).
const STDBOOL: [Row; 3] = [
    Row {
        text: b"bool",
        kind: TokenKind::Bool,
    },
    constant!(b"true", Int, 1),
    constant!(b"false", Int, 0),
];

/// What `limits.h` gives.
#[tactic(auto, unfolding(c_tokens::specs::Headers::limits_names))]
pub(crate) fn limits_rows(alloc: Global, model: DataModel) -> Result<Vec<Row>, NoMemory>
    ensures { IfOk result (λ made. rows made.items ≡ limits_names model) }
{
    match model {
        DataModel::Lp64 => Ok(Vec::from_array(alloc, LIMITS_64)?),
        DataModel::Ilp32 => Ok(Vec::from_array(alloc, LIMITS_32)?),
    }
}

/// What `stdint.h` gives.
#[tactic(auto, unfolding(c_tokens::specs::Headers::stdint_names))]
pub(crate) fn stdint_rows(alloc: Global, model: DataModel) -> Result<Vec<Row>, NoMemory>
    ensures { IfOk result (λ made. rows made.items ≡ stdint_names model) }
{
    match model {
        DataModel::Lp64 => Ok(Vec::from_array(alloc, STDINT_64)?),
        DataModel::Ilp32 => Ok(Vec::from_array(alloc, STDINT_32)?),
    }
}

/// What `stddef.h` gives.
#[tactic(auto, unfolding(c_tokens::specs::Headers::stddef_names))]
pub(crate) fn stddef_rows(alloc: Global, model: DataModel) -> Result<Vec<Row>, NoMemory>
    ensures { IfOk result (λ made. rows made.items ≡ stddef_names model) }
{
    match model {
        DataModel::Lp64 => Ok(Vec::from_array(alloc, STDDEF_64)?),
        DataModel::Ilp32 => Ok(Vec::from_array(alloc, STDDEF_32)?),
    }
}

/// What `stdbool.h` gives.
#[tactic(auto, unfolding(c_tokens::specs::Headers::stdbool_names))]
pub(crate) fn stdbool_rows(alloc: Global) -> Result<Vec<Row>, NoMemory>
    ensures { IfOk result (λ made. rows made.items ≡ stdbool_names) }
{
    Ok(Vec::from_array(alloc, STDBOOL)?)
}

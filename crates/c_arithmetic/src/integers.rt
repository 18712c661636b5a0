//! Conversions of integers (C11 6.3.1), and the integer types of a data model.

ghost use Rattle.std.specs.Prelude.{◌≡◌};
ghost use Rattle.kv_num.specs.IntType.{InRange};
ghost use Rattle.c_kinds.specs.Integers as spec;

use c_tokens::DataModel;
use kv_num::{IntType, is_signed, width, wrap};

/// The rank of an integer type (6.3.1.1p1).
fn rank(kind: IntType) -> u8
    ensures { result ≡ spec.rank_of kind }
{
    match kind {
        IntType::Bool => 0,
        IntType::Char | IntType::SChar | IntType::UChar => 1,
        IntType::Short | IntType::UShort => 2,
        IntType::Int | IntType::UInt => 3,
        IntType::Long32 | IntType::ULong32 | IntType::Long | IntType::ULong => 4,
        IntType::LongLong | IntType::ULongLong => 5,
    }
}

/// The promoted type (6.3.1.1p2).
pub fn promoted(kind: IntType) -> IntType
    ensures { result ≡ spec.promoted kind }
{
    if rank(kind) < 3 { IntType::Int } else { kind }
}

/// The unsigned type that corresponds to a signed one (6.2.5p6), of those of the rank of `int` and above.
fn unsigned_of(kind: IntType) -> IntType
    ensures { result ≡ spec.unsigned_of kind }
{
    match kind {
        IntType::Int => IntType::UInt,
        IntType::Long32 => IntType::ULong32,
        IntType::Long => IntType::ULong,
        IntType::LongLong => IntType::ULongLong,
        _ => kind,
    }
}

/// Of two types that are both signed or both unsigned, the one of the higher rank (6.3.1.8p1).
fn higher(left: IntType, right: IntType) -> IntType
    ensures { result ≡ spec.higher left right }
{
    if rank(right) <= rank(left) {
        left
    } else {
        right
    }
}

/// The common type of an unsigned and a signed type (6.3.1.8p1).
fn mixed(unsigned: IntType, signed: IntType) -> IntType
    ensures { result ≡ spec.mixed unsigned signed }
{
    if rank(signed) <= rank(unsigned) {
        unsigned
    } else if width(unsigned) < width(signed) {
        signed
    } else {
        unsigned_of(signed)
    }
}

/// The common type of two promoted types (6.3.1.8p1).
fn common(left: IntType, right: IntType) -> IntType
    ensures { result ≡ spec.common left right }
{
    match (is_signed(left), is_signed(right)) {
        (true, true) | (false, false) => higher(left, right),
        (true, false) => mixed(right, left),
        (false, true) => mixed(left, right),
    }
}

/// The common type of two integer types, by the usual arithmetic conversions (6.3.1.8).
pub fn usual(left: IntType, right: IntType) -> IntType
    ensures { result ≡ spec.usual left right }
{
    common(promoted(left), promoted(right))
}

/// The `int` of a truth: 1 or 0 (6.5.8p6).
pub(crate) fn truth(holds: bool) -> i128
    ensures { result ≡ spec.truth holds }
{
    if holds { 1 } else { 0 }
}

/// A number converted to a type (6.3.1.2, 6.3.1.3). It is in the range of the type.
pub fn converted(kind: IntType, n: i128) -> i128
    ensures value { result ≡ spec.converted kind n }
    ensures range { InRange kind result }
{
    match kind {
        IntType::Bool => truth(n != 0),
        _ => wrap(kind, n),
    }
}

/// What `long` is in a data model.
pub fn long_of(model: DataModel) -> IntType
    ensures { result ≡ spec.long_of model }
{
    match model {
        DataModel::Lp64 => IntType::Long,
        DataModel::Ilp32 => IntType::Long32,
    }
}

/// What `unsigned long` is in a data model.
pub fn unsigned_long_of(model: DataModel) -> IntType
    ensures { result ≡ spec.unsigned_long_of model }
{
    match model {
        DataModel::Lp64 => IntType::ULong,
        DataModel::Ilp32 => IntType::ULong32,
    }
}

/// The type of `sizeof` (6.5.3.4p5).
pub fn size_type(model: DataModel) -> IntType
    ensures { result ≡ spec.size_type model }
{
    match model {
        DataModel::Lp64 => IntType::ULong,
        DataModel::Ilp32 => IntType::UInt,
    }
}

/// How many bytes a pointer has.
pub(crate) fn pointer_bytes(model: DataModel) -> u8
    ensures { result ≡ spec.pointer_bytes model }
{
    match model {
        DataModel::Lp64 => 8,
        DataModel::Ilp32 => 4,
    }
}

/// How many bytes an integer type has (6.2.6.1).
pub(crate) fn bytes_of(kind: IntType) -> u8
    ensures { result ≡ spec.bytes_of kind }
{
    match kind {
        IntType::Bool | IntType::Char | IntType::SChar | IntType::UChar => 1,
        IntType::Short | IntType::UShort => 2,
        IntType::Int | IntType::UInt | IntType::Long32 | IntType::ULong32 => 4,
        IntType::Long | IntType::ULong | IntType::LongLong | IntType::ULongLong => 8,
    }
}

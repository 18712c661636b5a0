ghost use Rattle.std.specs.Prelude.{◌≡◌};
ghost use Rattle.kv_num.specs.IntType.{width_of, signed_of};

/// The integer types of C (6.2.5). `Long32` and `ULong32` are `long` and `unsigned long` where these
/// have 32 bits; `Char` is the plain `char`.
#[derive(Clone, Copy, Debug, PartialEq, Eq)]
pub enum IntType {
    Bool,
    Char,
    SChar,
    UChar,
    Short,
    UShort,
    Int,
    UInt,
    Long32,
    ULong32,
    Long,
    ULong,
    LongLong,
    ULongLong,
}

/// The result of an operation: its value, wrapped into the type's range, and whether the exact result
/// fits, which for a signed type means that there was no overflow. A negative number shifted to the left
/// never fits, even if the product is in range, as -1 by 1 (6.5.7).
#[derive(Clone, Copy, Debug, PartialEq, Eq)]
pub struct Num {
    pub value: i128,
    pub fits: bool,
}

/// How many bits a type has, with its sign bit (6.2.6.2).
pub fn width(t: IntType) -> u32
    ensures { result ≡ width_of t }
{
    match t {
        IntType::Bool => 1,
        IntType::Char | IntType::SChar | IntType::UChar => 8,
        IntType::Short | IntType::UShort => 16,
        IntType::Int | IntType::UInt | IntType::Long32 | IntType::ULong32 => 32,
        IntType::Long | IntType::ULong | IntType::LongLong | IntType::ULongLong => 64,
    }
}

/// Whether a type has negative numbers. The plain `char` has (6.2.5).
pub fn is_signed(t: IntType) -> bool
    ensures { result ≡ signed_of t }
{
    match t {
        IntType::Char
        | IntType::SChar
        | IntType::Short
        | IntType::Int
        | IntType::Long32
        | IntType::Long
        | IntType::LongLong => true,
        IntType::Bool
        | IntType::UChar
        | IntType::UShort
        | IntType::UInt
        | IntType::ULong32
        | IntType::ULong
        | IntType::ULongLong => false,
    }
}

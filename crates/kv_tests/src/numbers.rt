//! The ends of the ranges, examples, and results that an outside C compiler computed.
mod table;

use kv_num::{
    IntType, Num, add, bit_and, bit_not, bit_or, bit_xor, div, fits, is_signed, mul, rem, shl, shr,
    sub, width, wrap,
};
use std::process::Abort;
use std::test::Fail;

#[derive(Clone, Copy, Debug)]
pub enum Operation {
    Add,
    Sub,
    Mul,
    Div,
    Rem,
    ShiftLeft,
    ShiftRight,
    And,
    Or,
    Xor,
    Not,
}

/// A number that fits.
fn exact(value: i128) -> Num {
    Num { value, fits: true }
}

/// The first operand shifted by the second, where that is a distance of the type.
fn shifted(operation: Operation, t: IntType, a: i128, b: i128) -> Option<Num> {
    let d = u32::try_from(b).ok()?;
    if !fits(t, a) || d >= width(t) {
        return None;
    }
    match operation {
        Operation::ShiftLeft => Some(shl(t, a, d)),
        _ => Some(exact(shr(t, a, d))),
    }
}

/// The first operand divided by the second, where that is not 0.
fn divided(operation: Operation, t: IntType, a: i128, b: i128) -> Option<Num> {
    if !fits(t, a) || !fits(t, b) || b == 0 {
        return None;
    }
    match operation {
        Operation::Div => Some(div(t, a, b)),
        _ => Some(rem(t, a, b)),
    }
}

/// The result of an operation on numbers of a type.
fn result(operation: Operation, t: IntType, a: i128, b: i128) -> Option<Num> {
    if !fits(t, a) || !fits(t, b) {
        return None;
    }
    match operation {
        Operation::Add => Some(add(t, a, b)),
        Operation::Sub => Some(sub(t, a, b)),
        Operation::Mul => Some(mul(t, a, b)),
        Operation::Div | Operation::Rem => divided(operation, t, a, b),
        Operation::ShiftLeft | Operation::ShiftRight => shifted(operation, t, a, b),
        Operation::And => Some(exact(bit_and(t, a, b))),
        Operation::Or => Some(exact(bit_or(t, a, b))),
        Operation::Xor => Some(exact(bit_xor(t, a, b))),
        Operation::Not => Some(exact(bit_not(t, a))),
    }
}

/// An operation, a type, two operands, the value, and whether it fits.
pub type Case = (Operation, IntType, i128, i128, i128, bool);

/// Each case gives its value.
fn agree(rt: &impl Abort, cases: &[Case]) -> Result<(), Fail> {
    for &(operation, t, a, b, value, fits) in cases {
        let num = result(operation, t, a, b).ok_or("a condition")?;
        assert_eq!(rt; num, Num { value, fits }, "{operation:?} {t:?} {a} {b}");
    }
    Ok(())
}

#[test]
fn examples(rt: HostRuntime) -> Result<(), Fail> {
    let most = 18_446_744_073_709_551_615;
    assert_eq!(rt; wrap(IntType::Char, 200), -56);
    let cases = [
        (Operation::Div, IntType::Int, -7, 2, -3, true),
        (Operation::Rem, IntType::Int, -7, 2, -1, true),
        (Operation::ShiftRight, IntType::Int, -8, 1, -4, true),
        (Operation::Mul, IntType::ULongLong, most, most, 1, false),
    ];
    agree(&rt, &cases)
}

/// Each type, with its width, least and greatest number.
const ENDS: [(IntType, u32, i128, i128); 14] = [
    (IntType::Bool, 1, 0, 1),
    (IntType::Char, 8, -128, 127),
    (IntType::SChar, 8, -128, 127),
    (IntType::UChar, 8, 0, 255),
    (IntType::Short, 16, -32_768, 32_767),
    (IntType::UShort, 16, 0, 65_535),
    (IntType::Int, 32, -2_147_483_648, 2_147_483_647),
    (IntType::UInt, 32, 0, 4_294_967_295),
    (IntType::Long32, 32, -2_147_483_648, 2_147_483_647),
    (IntType::ULong32, 32, 0, 4_294_967_295),
    (
        IntType::Long,
        64,
        -9_223_372_036_854_775_808,
        9_223_372_036_854_775_807,
    ),
    (IntType::ULong, 64, 0, 18_446_744_073_709_551_615),
    (
        IntType::LongLong,
        64,
        -9_223_372_036_854_775_808,
        9_223_372_036_854_775_807,
    ),
    (IntType::ULongLong, 64, 0, 18_446_744_073_709_551_615),
];

/// What each operation gives at the ends of a range.
fn agree_at_ends(
    rt: &impl Abort,
    t: IntType,
    bits: u32,
    least: i128,
    most: i128,
) -> Result<(), Fail> {
    let (past, next) = (least.wrapping_sub(1), most.wrapping_add(1));
    let (all, quotient, last) = if least < 0 { (-1, -1, 0) } else { (most, 0, 1) };
    let top = if least < 0 { least } else { next / 2 };
    let distance = i128::from(bits) - 1;
    assert_eq!(rt; width(t), bits, "{t:?}");
    assert_eq!(rt; is_signed(t), least < 0, "{t:?}");
    assert!(rt; fits(t, least) && fits(t, most), "{t:?}");
    assert!(rt; !fits(t, past) && !fits(t, next), "{t:?}");
    assert_eq!(rt; wrap(t, past), most, "{t:?}");
    assert_eq!(rt; wrap(t, next), least, "{t:?}");
    let cases = [
        (Operation::Add, t, most, 1, least, false),
        (Operation::Sub, t, least, 1, most, false),
        (Operation::Mul, t, most, most, 1, most == 1),
        (Operation::Div, t, least, most, quotient, true),
        (Operation::Rem, t, least, most, quotient, true),
        (Operation::ShiftLeft, t, most, distance, top, bits == 1),
        (Operation::ShiftRight, t, most, distance, last, true),
        (Operation::And, t, least, most, 0, true),
        (Operation::Or, t, least, most, all, true),
        (Operation::Xor, t, least, most, all, true),
        (Operation::Not, t, least, 0, most, true),
    ];
    agree(rt, &cases)
}

fn agree_at_all_ends(rt: &impl Abort, ends: &[(IntType, u32, i128, i128)]) -> Result<(), Fail> {
    for &(t, bits, least, most) in ends {
        agree_at_ends(rt, t, bits, least, most)?;
    }
    Ok(())
}

#[test]
fn ends(rt: HostRuntime) -> Result<(), Fail> {
    agree_at_all_ends(&rt, &ENDS)
}

#[test]
fn as_compiled_c(rt: HostRuntime) -> Result<(), Fail> {
    agree(&rt, &table::CASES)
}

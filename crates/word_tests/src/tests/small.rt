use super::*;

/// Two widths, and whether the words have signs.
#[derive(Clone, Copy)]
struct Widths {
    first: u32,
    second: u32,
    signed: bool,
}

const OPERATIONS: [Operation; 15] = [
    Operation::Add,
    Operation::Sub,
    Operation::Mul,
    Operation::Div,
    Operation::Rem,
    Operation::ShiftLeft,
    Operation::ShiftRight,
    Operation::Less,
    Operation::Equal,
    Operation::Select,
    Operation::Bits(BitOperation::And),
    Operation::Bits(BitOperation::Or),
    Operation::Bits(BitOperation::Xor),
    Operation::Bits(BitOperation::Not),
    Operation::Bits(BitOperation::Negate),
];

/// Two to a small power.
fn power(exponent: u32) -> i128 {
    1i128.wrapping_shl(exponent)
}

/// The number that has these bits.
fn number(bits: i128, width: u32, signed: bool) -> i128 {
    if signed && bits >= power(width.saturating_sub(1)) {
        bits.wrapping_sub(power(width))
    } else {
        bits
    }
}

/// Whether a number of this width has this value.
fn is_number(value: i128, width: u32, signed: bool) -> bool {
    let half = power(width.saturating_sub(1));
    if signed {
        0i128.wrapping_sub(half) <= value && value < half
    } else {
        0 <= value && value < power(width)
    }
}

/// The quotient, and 0 by a divisor 0.
fn quotient(a: i128, b: i128) -> i128 {
    if b == 0 { 0 } else { a.wrapping_div(b) }
}

/// What the quotient leaves, and 0 by a divisor 0.
fn remainder(a: i128, b: i128) -> i128 {
    if b == 0 { 0 } else { a.wrapping_rem(b) }
}

/// The exact result of an operation on two numbers, of which the second is a distance of as many places in a shift.
fn exact(operation: Operation, a: i128, b: i128, places: u32, is_near: bool) -> i128 {
    match operation {
        Operation::Add => a.wrapping_add(b),
        Operation::Sub => a.wrapping_sub(b),
        Operation::Mul => a.wrapping_mul(b),
        Operation::Div => quotient(a, b),
        Operation::Rem => remainder(a, b),
        Operation::ShiftLeft if is_near => a.wrapping_mul(power(places)),
        Operation::ShiftRight if is_near => a.wrapping_shr(places),
        Operation::ShiftLeft | Operation::ShiftRight => 0,
        Operation::Less => i128::from(a < b),
        Operation::Equal => i128::from(a == b),
        Operation::Select => { if a & 1 == 1 { a } else { b } }
        Operation::Bits(BitOperation::And) => a & b,
        Operation::Bits(BitOperation::Or) => a | b,
        Operation::Bits(BitOperation::Xor) => a ^ b,
        Operation::Bits(BitOperation::Not) => (-1i128).wrapping_sub(a),
        Operation::Bits(BitOperation::Negate) => 0i128.wrapping_sub(a),
    }
}

/// The bits of a result and whether it fits, from two words.
fn want(operation: Operation, pair: (u128, u128), widths: Widths) -> (u128, bool) {
    let (x, y) = (pair.0.cast_signed(), pair.1.cast_signed());
    let a = number(x, widths.first, widths.signed);
    let b = number(y, widths.second, widths.signed);
    let is_near = 0 <= y && y < i128::from(widths.first);
    let places = if is_near { y as u32 } else { 0 };
    let result = exact(operation, a, b, places, is_near);
    let fits = match operation {
        Operation::Add | Operation::Sub | Operation::Mul | Operation::Div => {
            is_number(result, widths.first, widths.signed)
        }
        Operation::Rem => is_number(quotient(a, b), widths.first, widths.signed),
        Operation::ShiftLeft => a >= 0 && is_number(result, widths.first, widths.signed),
        _ => true,
    };
    let mask = power(widths.first).wrapping_sub(1);
    ((result & mask).cast_unsigned(), fits)
}

/// Every pair of words of two widths.
fn all_pairs(alloc: Global, widths: Widths) -> Result<Vec<(u128, u128)>, NoMemory> {
    let mut pairs = Vec::new(alloc);
    let first = 1u128.wrapping_shl(widths.first);
    let both = 1u128.wrapping_shl(widths.first.saturating_add(widths.second));
    for step in 0..both {
        let a = step & first.wrapping_sub(1);
        pairs.push((a, step.wrapping_shr(widths.first)))?;
    }
    Ok(pairs)
}

/// Compares a circuit with the exact results on every pair of words, and counts the pairs.
fn words_agree(
    rt: &impl Abort,
    alloc: Global,
    circuit: &Circuit,
    operation: Operation,
    widths: Widths,
) -> Result<u32, NoMemory> {
    let pairs = all_pairs(alloc, widths)?;
    let truths = circuit.run(alloc, &pairs, widths.first as usize, widths.second as usize)?;
    let mut compared = 0u32;
    for (lane, pair) in pairs.iter().enumerate() {
        assert_eq!(rt;
            circuit.result(&truths, lane),
            want(operation, *pair, widths),
            "{operation:?} of {pair:?}"
        );
        compared = compared.saturating_add(1);
    }
    Ok(compared)
}

/// Compares each operation on words of one width.
fn width_agrees(rt: &impl Abort, alloc: Global, width: u32, signed: bool) -> Result<u32, NoMemory> {
    let widths = Widths {
        first: width,
        second: width,
        signed,
    };
    let mut compared = 0u32;
    for operation in OPERATIONS {
        let circuit = Circuit::new(alloc, operation, width.max(1) as usize, signed)?;
        let pairs = words_agree(rt, alloc, &circuit, operation, widths)?;
        compared = compared.saturating_add(pairs);
    }
    Ok(compared)
}

/// Compares both shifts of words of a width by words of another.
fn shifts_agree(rt: &impl Abort, alloc: Global, widths: Widths) -> Result<u32, NoMemory> {
    let mut compared = 0u32;
    for operation in [Operation::ShiftLeft, Operation::ShiftRight] {
        let circuit = Circuit::shift(
            alloc,
            operation == Operation::ShiftLeft,
            widths.first.max(1) as usize,
            widths.second as usize,
            widths.signed,
        )?;
        let pairs = words_agree(rt, alloc, &circuit, operation, widths)?;
        compared = compared.saturating_add(pairs);
    }
    Ok(compared)
}

#[test]
fn small_words(rt: HostRuntime) -> Result<(), Fail> {
    for (width, pairs) in [(1, 60), (2, 240), (3, 960)] {
        for signed in [false, true] {
            let compared = width_agrees(&rt, rt.alloc(), width, signed)?;
            assert_eq!(rt; compared, pairs, "{width} bits");
        }
    }
    Ok(())
}

#[test]
fn distances_of_other_widths(rt: HostRuntime) -> Result<(), Fail> {
    let mut compared = 0u32;
    for first in 1..=3u32 {
        for second in 0..=4u32 {
            for signed in [false, true] {
                let widths = Widths {
                    first,
                    second,
                    signed,
                };
                let pairs = shifts_agree(&rt, rt.alloc(), widths)?;
                compared = compared.saturating_add(pairs);
            }
        }
    }
    assert_eq!(rt; compared, 1_736);
    Ok(())
}

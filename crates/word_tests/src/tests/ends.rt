use super::*;

const OPERATIONS: [Operation; 15] = [
    Operation::Add,
    Operation::Sub,
    Operation::Mul,
    Operation::Div,
    Operation::Rem,
    Operation::ShiftLeft,
    Operation::ShiftRight,
    Operation::Less,
    Operation::Equal,
    Operation::Select,
    Operation::Bits(BitOperation::And),
    Operation::Bits(BitOperation::Or),
    Operation::Bits(BitOperation::Xor),
    Operation::Bits(BitOperation::Not),
    Operation::Bits(BitOperation::Negate),
];

/// The lowest bits of a number.
fn lowest(number: u128, width: u32) -> u128 {
    if width < 128 {
        number & ((1 << width) - 1)
    } else {
        number
    }
}

/// The number with a sign that has these lowest bits.
fn signed(bits: u128, width: u32) -> i128 {
    if width == 0 || width >= 128 {
        return bits.cast_signed();
    }
    let unused = 128 - width;
    (bits << unused).cast_signed() >> unused
}

/// The numbers at the ends of a width's ranges and around zero, as bits.
fn ends(width: u32) -> [u128; 6] {
    let greatest = lowest(
        u128::MAX >> 1 >> 128u32.saturating_sub(width).min(127),
        width,
    );
    let least = lowest(greatest.wrapping_add(1), width);
    let all = lowest(u128::MAX, width);
    [0, lowest(1, width), lowest(2, width), greatest, least, all]
}

/// The result of an operation on 128 bits.
fn exact_bits(operation: BitOperation, a: u128, b: u128) -> u128 {
    match operation {
        BitOperation::And => a & b,
        BitOperation::Or => a | b,
        BitOperation::Xor => a ^ b,
        BitOperation::Not => !a,
        BitOperation::Negate => 0u128.wrapping_sub(a),
    }
}

/// A result in 128 bits, and whether the exact one is another.
fn exact_signed(operation: Operation, a: i128, b: i128) -> Option<(i128, bool)> {
    match operation {
        Operation::Add => Some(a.overflowing_add(b)),
        Operation::Sub => Some(a.overflowing_sub(b)),
        Operation::Mul => Some(a.overflowing_mul(b)),
        Operation::Div if b != 0 => Some((a.wrapping_div(b), a.checked_div(b).is_none())),
        Operation::Rem if b != 0 => Some((a.wrapping_rem(b), false)),
        Operation::Div | Operation::Rem => Some((0, false)),
        Operation::Less => Some((i128::from(a < b), false)),
        Operation::Bits(operation) => {
            let bits = exact_bits(operation, a.cast_unsigned(), b.cast_unsigned());
            Some((bits.cast_signed(), false))
        }
        _ => None,
    }
}

/// The same without signs.
fn exact_unsigned(operation: Operation, a: u128, b: u128) -> Option<(u128, bool)> {
    match operation {
        Operation::Add => Some(a.overflowing_add(b)),
        Operation::Sub => Some(a.overflowing_sub(b)),
        Operation::Mul => Some(a.overflowing_mul(b)),
        Operation::Div if b != 0 => Some((a / b, false)),
        Operation::Rem if b != 0 => Some((a % b, false)),
        Operation::Div | Operation::Rem => Some((0, false)),
        Operation::Less => Some((u128::from(a < b), false)),
        Operation::Equal => Some((u128::from(a == b), false)),
        Operation::Select => Some((if a & 1 == 1 { a } else { b }, false)),
        Operation::Bits(operation) => Some((exact_bits(operation, a, b), false)),
        _ => None,
    }
}

/// A shift of a number with a sign, and whether a bit was lost. By the width and more the result is 0.
fn shifted_signed(
    operation: Operation,
    a: i128,
    distance: u128,
    width: u32,
) -> Option<(i128, bool)> {
    let is_near = distance < u128::from(width);
    let places = if is_near { distance as u32 } else { 0 };
    let up = a.wrapping_shl(places);
    match operation {
        Operation::ShiftLeft if is_near => Some((up, a < 0 || up.wrapping_shr(places) != a)),
        Operation::ShiftRight if is_near => Some((a.wrapping_shr(places), false)),
        Operation::ShiftLeft => Some((0, a < 0)),
        Operation::ShiftRight => Some((0, false)),
        _ => None,
    }
}

/// The same without signs.
fn shifted_unsigned(
    operation: Operation,
    a: u128,
    distance: u128,
    width: u32,
) -> Option<(u128, bool)> {
    let is_near = distance < u128::from(width);
    let places = if is_near { distance as u32 } else { 0 };
    let up = a.wrapping_shl(places);
    match operation {
        Operation::ShiftLeft if is_near => Some((up, up.wrapping_shr(places) != a)),
        Operation::ShiftRight if is_near => Some((a.wrapping_shr(places), false)),
        Operation::ShiftLeft | Operation::ShiftRight => Some((0, false)),
        _ => None,
    }
}

/// The bits of the result of two words with a sign, and whether the exact result fits.
fn want_signed(operation: Operation, a: u128, b: u128, width: u32) -> Option<(u128, bool)> {
    let (x, y) = (signed(a, width), signed(b, width));
    let (exact, over) = exact_signed(operation, x, y).or(shifted_signed(operation, x, b, width))?;
    let value = lowest(exact.cast_unsigned(), width);
    Some((value, !over && signed(value, width) == exact))
}

/// The same of two words without signs.
fn want_unsigned(operation: Operation, a: u128, b: u128, width: u32) -> Option<(u128, bool)> {
    let (exact, over) = exact_unsigned(operation, a, b).or(shifted_unsigned(
        operation, a, b, width,
    ))?;
    let value = lowest(exact, width);
    Some((value, !over && value == exact))
}

/// The bits of the result of two words, and whether the exact result fits.
fn want(
    operation: Operation,
    pair: (u128, u128),
    width: u32,
    is_signed: bool,
) -> Option<(u128, bool)> {
    if is_signed {
        want_signed(operation, pair.0, pair.1, width)
    } else {
        want_unsigned(operation, pair.0, pair.1, width)
    }
}

/// Each two ends of a width.
fn pairs_of_ends(alloc: Global, width: u32) -> Result<Vec<(u128, u128)>, NoMemory> {
    let mut pairs = Vec::new(alloc);
    for a in ends(width) {
        for b in ends(width) {
            pairs.push((a, b))?;
        }
    }
    Ok(pairs)
}

/// Compares an operation on each two ends of a width, and counts the pairs.
fn ends_agree(
    rt: &impl Abort,
    alloc: Global,
    operation: Operation,
    width: u32,
    is_signed: bool,
) -> Result<u32, NoMemory> {
    let bits = width.max(1) as usize;
    let circuit = Circuit::new(alloc, operation, bits, is_signed)?;
    let pairs = pairs_of_ends(alloc, width)?;
    let truths = circuit.run(alloc, &pairs, bits, bits)?;
    let says_fits = circuit.fits.is_some() && operation != Operation::Rem;
    let mut compared = 0u32;
    for (lane, pair) in pairs.iter().enumerate() {
        if let Some((value, fits)) = want(operation, *pair, width, is_signed) {
            let found = circuit.result(&truths, lane);
            assert_eq!(rt; found.0, value, "{operation:?} of {pair:?}");
            assert!(rt; !says_fits || found.1 == fits, "{operation:?} of {pair:?}");
            compared = compared.saturating_add(1);
        }
    }
    Ok(compared)
}

/// Compares each operation at a width, with or without signs, and counts the pairs.
fn width_agrees(
    rt: &impl Abort,
    alloc: Global,
    width: u32,
    is_signed: bool,
) -> Result<u32, NoMemory> {
    let mut compared = 0u32;
    for operation in OPERATIONS {
        let pairs = ends_agree(rt, alloc, operation, width, is_signed)?;
        compared = compared.saturating_add(pairs);
    }
    Ok(compared)
}

#[test]
fn ends_with_signs(rt: HostRuntime) -> Result<(), Fail> {
    for (width, pairs) in [(1, 468), (7, 468), (32, 468), (64, 468), (128, 468)] {
        assert_eq!(rt;
            width_agrees(&rt, rt.alloc(), width, true)?,
            pairs,
            "{width} bits"
        );
    }
    Ok(())
}

#[test]
fn ends_without_signs(rt: HostRuntime) -> Result<(), Fail> {
    for (width, pairs) in [(1, 540), (7, 540), (32, 540), (64, 540), (128, 540)] {
        assert_eq!(rt;
            width_agrees(&rt, rt.alloc(), width, false)?,
            pairs,
            "{width} bits"
        );
    }
    Ok(())
}

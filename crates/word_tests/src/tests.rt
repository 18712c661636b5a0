//! Every pair of 8-bit words against the typed numbers, the ends of other widths against the machine's numbers, every pair
//! of words of 1 to 3 bits against whole numbers, and how many gates each operation has.
mod ends;
mod small;

use super::*;
use kv_base::NoMemory;
use kv_num::{IntType, Num};
use std::alloc::Global;
use std::process::Abort;
use std::test::Fail;

impl Circuit {
    /// Evaluates the circuit on pairs of words of two widths, each of which gives a pattern.
    fn run(
        &self,
        alloc: Global,
        pairs: &[(u128, u128)],
        width: usize,
        other: usize,
    ) -> Result<Vec<u128>, NoMemory> {
        let inputs = inputs(alloc, pairs, width, other)?;
        evaluated(alloc, &self.gates, &inputs)
    }

    /// The word's bits in a pattern, and whether the result fits.
    fn result(&self, truths: &[u128], lane: usize) -> (u128, bool) {
        let value = word_in_lane(truths, self.value.as_slice(), lane);
        let fits = match self.fits {
            Some(l) => word_in_lane(truths, &[l], lane) == 1,
            None => true,
        };
        (value, fits)
    }
}

/// What the typed numbers say of two numbers of `signed char`, or nothing where they say nothing.
fn typed(operation: Operation, a: i128, b: i128) -> Option<Num> {
    let t = IntType::SChar;
    if !kv_num::fits(t, a) || !kv_num::fits(t, b) {
        return None;
    }
    match operation {
        Operation::Add => Some(kv_num::add(t, a, b)),
        Operation::Mul => Some(kv_num::mul(t, a, b)),
        Operation::Div if b != 0 => Some(kv_num::div(t, a, b)),
        Operation::Rem if b != 0 => Some(kv_num::rem(t, a, b)),
        Operation::Less => Some(Num {
            value: i128::from(a < b),
            fits: true,
        }),
        _ => None,
    }
}

/// Compares every pair of 8-bit words, and counts the pairs.
fn bytes_agree(rt: &impl Abort, alloc: Global, operation: Operation) -> Result<u32, NoMemory> {
    let circuit = Circuit::new(alloc, operation, 8, true)?;
    let mut compared = 0u32;
    for step in 0..256u32 {
        let a = i128::from(step) - 128;
        let below = row_agrees(rt, alloc, &circuit, operation, a, -128)?;
        let above = row_agrees(rt, alloc, &circuit, operation, a, 0)?;
        compared = compared.saturating_add(below).saturating_add(above);
    }
    Ok(compared)
}

/// Compares the pairs of a first number and 128 second ones, and counts those that have a result.
fn row_agrees(
    rt: &impl Abort,
    alloc: Global,
    circuit: &Circuit,
    operation: Operation,
    a: i128,
    least: i128,
) -> Result<u32, NoMemory> {
    let mut pairs = Vec::new(alloc);
    for step in 0..128u32 {
        let b = least.wrapping_add(i128::from(step));
        pairs.push((a.cast_unsigned(), b.cast_unsigned()))?;
    }
    let truths = circuit.run(alloc, &pairs, 8, 8)?;
    let mut compared = 0u32;
    for (lane, pair) in pairs.iter().enumerate() {
        let b = pair.1.cast_signed();
        if let Some(want) = typed(operation, a, b) {
            let want = (want.value.cast_unsigned() & 255, want.fits);
            assert_eq!(rt;
                circuit.result(&truths, lane),
                want,
                "{operation:?} of {a}, {b}"
            );
            compared = compared.saturating_add(1);
        }
    }
    Ok(compared)
}

#[test]
fn sums_of_bytes(rt: HostRuntime) -> Result<(), Fail> {
    assert_eq!(rt; bytes_agree(&rt, rt.alloc(), Operation::Add)?, 65_536);
    Ok(())
}

#[test]
fn products_of_bytes(rt: HostRuntime) -> Result<(), Fail> {
    assert_eq!(rt; bytes_agree(&rt, rt.alloc(), Operation::Mul)?, 65_536);
    Ok(())
}

#[test]
fn quotients_of_bytes(rt: HostRuntime) -> Result<(), Fail> {
    assert_eq!(rt; bytes_agree(&rt, rt.alloc(), Operation::Div)?, 65_280);
    Ok(())
}

#[test]
fn remainders_of_bytes(rt: HostRuntime) -> Result<(), Fail> {
    assert_eq!(rt; bytes_agree(&rt, rt.alloc(), Operation::Rem)?, 65_280);
    Ok(())
}

#[test]
fn orders_of_bytes(rt: HostRuntime) -> Result<(), Fail> {
    assert_eq!(rt; bytes_agree(&rt, rt.alloc(), Operation::Less)?, 65_536);
    Ok(())
}

/// How many gates the circuits of words with a sign have at 8, 32 and 64 bits.
const COUNTS: [(Operation, usize, usize, usize); 8] = [
    (Operation::Add, 36, 156, 316),
    (Operation::Sub, 36, 156, 316),
    (Operation::Mul, 338, 5_954, 24_194),
    (Operation::Div, 377, 4_625, 17_457),
    (Operation::ShiftLeft, 82, 514, 1_218),
    (Operation::ShiftRight, 75, 523, 1_255),
    (Operation::Less, 29, 125, 253),
    (Operation::Equal, 15, 63, 127),
];

#[test]
fn gate_counts(rt: HostRuntime) -> Result<(), Fail> {
    for (operation, at8, at32, at64) in COUNTS {
        for (width, count) in [(8, at8), (32, at32), (64, at64)] {
            let circuit = Circuit::new(rt.alloc(), operation, width, true)?;
            let found = gate_count(&circuit.gates);
            assert_eq!(rt; found, count, "{operation:?} of {width} bits");
        }
    }
    Ok(())
}

#[test]
fn comparisons_have_few_gates(rt: HostRuntime) -> Result<(), Fail> {
    for width in 1..=40usize {
        for signed in [false, true] {
            let circuit = Circuit::new(rt.alloc(), Operation::Less, width, signed)?;
            assert_eq!(rt; gate_count(&circuit.gates), 4 * width - 3, "{width} bits");
        }
    }
    Ok(())
}

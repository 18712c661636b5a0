use gate_core::{Gate, Gates};
use kv_base::NoMemory;
use sat_clause::Lit;
use std::alloc::Global;

/// How many patterns are evaluated at a time: bit j of a number is the truth in pattern j.
pub const LANES: usize = 128;

/// The truths of a literal, from those of the variables.
fn truths_of(truths: &[u128], l: Lit) -> u128 {
    let of_variable = truths.get(l.variable() as usize).copied().unwrap_or(0);
    if l.is_complement() {
        !of_variable
    } else {
        of_variable
    }
}

/// The truths of each variable of a table whose inputs stand first, from those of the inputs.
pub fn evaluated(alloc: Global, gates: &Gates, inputs: &[u128]) -> Result<Vec<u128>, NoMemory> {
    let mut truths = Vec::new(alloc);
    for variable in 0..gates.len() {
        let of_gate = match gates.gate(variable as u64) {
            Gate::False => 0,
            Gate::Input(number) => inputs.get(number as usize).copied().unwrap_or(0),
            Gate::And(a, b) => truths_of(&truths, a) & truths_of(&truths, b),
            Gate::Xor(a, b) => truths_of(&truths, a) ^ truths_of(&truths, b),
        };
        truths.push(of_gate)?;
    }
    Ok(truths)
}

/// The truths of two words of inputs of two widths, of which each pair gives a pattern, the first word's first.
pub fn inputs(
    alloc: Global,
    pairs: &[(u128, u128)],
    width: usize,
    other: usize,
) -> Result<Vec<u128>, NoMemory> {
    let mut truths = Vec::new(alloc);
    for i in 0..width {
        truths.push(input(pairs, i, false))?;
    }
    for i in 0..other {
        truths.push(input(pairs, i, true))?;
    }
    Ok(truths)
}

/// The truths of bit i of the first or the second number of each pair.
fn input(pairs: &[(u128, u128)], i: usize, is_second: bool) -> u128 {
    let mut truths = 0;
    for (lane, pair) in pairs.iter().enumerate() {
        let number = if is_second { pair.1 } else { pair.0 };
        if lane < LANES && is_set(number, i) {
            truths |= 1 << lane;
        }
    }
    truths
}

/// Whether bit i of a number is set.
pub fn is_set(number: u128, i: usize) -> bool {
    i < 128 && number >> i & 1 == 1
}

/// The number without a sign of a word in a pattern.
pub fn word_in_lane(truths: &[u128], word: &[Lit], lane: usize) -> u128 {
    let mut number = 0;
    for (i, l) in word.iter().enumerate() {
        if i < 128 && is_set(truths_of(truths, *l), lane) {
            number |= 1 << i;
        }
    }
    number
}

/// How many gates a table has beside its inputs and the constant.
pub fn gate_count(gates: &Gates) -> usize {
    let mut count = 0;
    for variable in 0..gates.len() {
        if let Gate::And(_, _) | Gate::Xor(_, _) = gates.gate(variable as u64) {
            count += 1;
        }
    }
    count
}

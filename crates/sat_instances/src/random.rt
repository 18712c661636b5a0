//! Random clauses.

use crate::circuit::Circuit;
use kv_base::NoMemory;
use rand::seq::index::sample;
use rand_core::{Rng, SeedableRng};
use rand_xoshiro::Xoshiro256PlusPlus;
use sat_clause::{Cnf, Lit};
use std::alloc::Global;

/// How many clauses a hundred variables have where half of the sets have an assignment.
fn hardest(width: u8) -> Option<u16> {
    match width {
        3 => Some(426),
        5 => Some(2_200),
        _ => None,
    }
}

/// Clauses of this many different variables each, where it is known how many are hardest.
pub fn random(alloc: Global, width: u8, vars: u16, number: u64) -> Result<Option<Cnf>, NoMemory> {
    let Some(hundred) = hardest(width) else {
        return Ok(None);
    };
    if vars < u16::from(width) {
        return Ok(None);
    }
    let mut rng = Xoshiro256PlusPlus::seed_from_u64(number);
    let mut circuit = Circuit::new(alloc);
    let mut lits = Vec::new(alloc);
    for _var in 0..vars {
        lits.push(circuit.input()?)?;
    }
    for _clause in 0..u64::from(vars) * u64::from(hundred) / 100 {
        clause(&mut circuit, &mut rng, lits.as_slice(), width)?;
    }
    Ok(Some(circuit.into_cnf()))
}

/// A clause of different variables, each complemented or not; of all where there are too few.
fn clause(
    circuit: &mut Circuit,
    rng: &mut Xoshiro256PlusPlus,
    lits: &[Lit],
    width: u8,
) -> Result<(), NoMemory> {
    let width = usize::from(width).min(lits.len());
    let mut chosen = Vec::new(circuit.alloc);
    for at in sample(circuit.alloc, rng, lits.len(), width)? {
        if let Some(lit) = lits.get(at) {
            let is_complement = rng.next_u64() % 2 == 1;
            chosen.push(if is_complement {
                lit.complement()
            } else {
                *lit
            })?;
        }
    }
    circuit.clause(chosen.as_slice())
}

//! Pigeons in holes.

use crate::circuit::Circuit;
use kv_base::NoMemory;
use sat_clause::{Cnf, Lit};
use std::alloc::Global;

/// One pigeon more than there are holes: each has a hole, and no two the same.
pub fn pigeons(alloc: Global, holes: u8) -> Result<Cnf, NoMemory> {
    let mut circuit = Circuit::new(alloc);
    let mut pigeons: Vec<Vec<Lit>> = Vec::new(alloc);
    for _pigeon in 0..=u16::from(holes) {
        pigeons.push(somewhere(&mut circuit, holes)?)?;
    }
    for (place, one) in pigeons.iter().enumerate() {
        for other in pigeons.iter().take(place) {
            apart(&mut circuit, one, other)?;
        }
    }
    Ok(circuit.into_cnf())
}

/// A pigeon that is in a hole: for each hole, whether it is there.
fn somewhere(circuit: &mut Circuit, holes: u8) -> Result<Vec<Lit>, NoMemory> {
    let mut places = Vec::new(circuit.alloc);
    for _hole in 0..holes {
        places.push(circuit.input()?)?;
    }
    circuit.clause(places.as_slice())?;
    Ok(places)
}

/// Two pigeons aren't in one hole.
fn apart(circuit: &mut Circuit, one: &[Lit], other: &[Lit]) -> Result<(), NoMemory> {
    for (here, there) in one.iter().zip(other) {
        circuit.clause(&[here.complement(), there.complement()])?;
    }
    Ok(())
}

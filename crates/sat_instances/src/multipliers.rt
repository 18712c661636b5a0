//! Two multipliers of one pair of factors whose products differ.

use crate::circuit::Circuit;
use kv_base::NoMemory;
use sat_clause::{Cnf, Lit};
use std::alloc::Global;

/// How the bits of a product are added.
#[derive(Clone, Copy)]
pub enum Order {
    /// Row by row: each bit of the second factor adds the first one.
    Rows,
    /// Column by column, from the lowest: three bits of a column become one of it and one of the next.
    Columns,
}

impl Order {
    pub fn of(word: &str) -> Option<Order> {
        match word {
            "rows" => Some(Order::Rows),
            "columns" => Some(Order::Columns),
            _ => None,
        }
    }
}

/// The second product has its factors exchanged.
pub fn multipliers(alloc: Global, bits: u8, first: Order, second: Order) -> Result<Cnf, NoMemory> {
    let mut circuit = Circuit::new(alloc);
    let a = word(&mut circuit, bits)?;
    let b = word(&mut circuit, bits)?;
    let one = product(&mut circuit, first, a.as_slice(), b.as_slice())?;
    let other = product(&mut circuit, second, b.as_slice(), a.as_slice())?;
    let mut differs = Vec::new(alloc);
    for (x, y) in one.iter().zip(other.as_slice()) {
        differs.push(circuit.xor(*x, *y)?)?;
    }
    circuit.clause(differs.as_slice())?;
    Ok(circuit.into_cnf())
}

fn word(circuit: &mut Circuit, bits: u8) -> Result<Vec<Lit>, NoMemory> {
    let mut made = Vec::new(circuit.alloc);
    for _bit in 0..bits {
        made.push(circuit.input()?)?;
    }
    Ok(made)
}

fn product(
    circuit: &mut Circuit,
    order: Order,
    a: &[Lit],
    b: &[Lit],
) -> Result<Vec<Lit>, NoMemory> {
    match order {
        Order::Rows => by_rows(circuit, a, b),
        Order::Columns => by_columns(circuit, a, b),
    }
}

/// The lowest bits of the product, one for each row, and then what is left of the sum.
fn by_rows(circuit: &mut Circuit, a: &[Lit], b: &[Lit]) -> Result<Vec<Lit>, NoMemory> {
    let mut low = Vec::new(circuit.alloc);
    let mut sum: Vec<Lit> = Vec::new(circuit.alloc);
    for y in b {
        let row = row(circuit, a, *y)?;
        sum = if sum.is_empty() {
            row
        } else {
            added(circuit, sum.as_slice(), row.as_slice())?
        };
        if let Some(bit) = sum.first() {
            low.push(*bit)?;
            sum.remove(0);
        }
    }
    low.append(&mut sum)?;
    Ok(low)
}

/// A word times a bit.
fn row(circuit: &mut Circuit, a: &[Lit], y: Lit) -> Result<Vec<Lit>, NoMemory> {
    let mut made = Vec::new(circuit.alloc);
    for x in a {
        made.push(circuit.and(*x, y)?)?;
    }
    Ok(made)
}

/// The sum of two words, the first of which may be one bit shorter, with its carry as the last bit.
fn added(circuit: &mut Circuit, a: &[Lit], b: &[Lit]) -> Result<Vec<Lit>, NoMemory> {
    let mut made = Vec::new(circuit.alloc);
    let mut carry: Option<Lit> = None;
    for (place, y) in b.iter().enumerate() {
        let sum = match (a.get(place), carry) {
            (Some(x), Some(into)) => circuit.full_adder(*x, *y, into)?,
            (Some(x), None) => circuit.half_adder(*x, *y)?,
            (None, Some(into)) => circuit.half_adder(*y, into)?,
            (None, None) => {
                made.push(*y)?;
                continue;
            }
        };
        made.push(sum.bit)?;
        carry = Some(sum.carry);
    }
    if let Some(top) = carry {
        made.push(top)?;
    }
    Ok(made)
}

/// The columns are added one after another.
fn by_columns(circuit: &mut Circuit, a: &[Lit], b: &[Lit]) -> Result<Vec<Lit>, NoMemory> {
    let mut made = Vec::new(circuit.alloc);
    let mut carries: Vec<Lit> = Vec::new(circuit.alloc);
    for place in 0..a.len().saturating_add(b.len()) {
        let mut column = column(circuit, a, b, place)?;
        column.append(&mut carries)?;
        let (bit, next) = column_sum(circuit, column)?;
        if let Some(bit) = bit {
            made.push(bit)?;
        }
        carries = next;
    }
    Ok(made)
}

/// The products of two bits whose places add up to this one.
fn column(circuit: &mut Circuit, a: &[Lit], b: &[Lit], place: usize) -> Result<Vec<Lit>, NoMemory> {
    let mut made = Vec::new(circuit.alloc);
    for (i, x) in a.iter().enumerate() {
        let Some(j) = place.checked_sub(i) else {
            continue;
        };
        if let Some(y) = b.get(j) {
            made.push(circuit.and(*x, *y)?)?;
        }
    }
    Ok(made)
}

/// The last bit of a column's sum, where it isn't empty, and the carries into the next.
fn column_sum(
    circuit: &mut Circuit,
    mut column: Vec<Lit>,
) -> Result<(Option<Lit>, Vec<Lit>), NoMemory> {
    let mut carries = Vec::new(circuit.alloc);
    for _turn in 0..column.len() {
        let Some(a) = column.pop() else {
            return Ok((None, carries));
        };
        let Some(b) = column.pop() else {
            return Ok((Some(a), carries));
        };
        let sum = match column.pop() {
            Some(c) => circuit.full_adder(a, b, c)?,
            None => circuit.half_adder(a, b)?,
        };
        column.push(sum.bit)?;
        carries.push(sum.carry)?;
    }
    Ok((column.pop(), carries))
}

//! Writes clauses in the DIMACS form, to measure a solver by:
//!
//! - `sat_instances pigeons HOLES`: one pigeon more than there are holes, and at most one in each. No assignment.
//! - `sat_instances random WIDTH VARS NUMBER`: random clauses of 3 or 5 different variables, as many as are hardest; each
//!   number gives others.
//! - `sat_instances multipliers BITS ORDER ORDER`: two multipliers, each by `rows` or `columns`, the second with its factors
//!   exchanged, whose products differ. No assignment.
#![tactic(auto)]

mod circuit;
mod multipliers;
mod pigeons;
mod random;

use kv_base::NoMemory;
use multipliers::Order;
use sat_clause::{Clause, Cnf};
use std::alloc::Global;
use std::{env, io};

/// The clauses that the words name, or none where they name none.
fn instance(alloc: Global, words: &[&str]) -> Result<Option<Cnf>, NoMemory> {
    match words {
        ["pigeons", holes] => match holes.parse::<u8>() {
            Ok(holes) => Ok(Some(pigeons::pigeons(alloc, holes)?)),
            Err(_) => Ok(None),
        },
        ["random", width, vars, number] => {
            match (
                width.parse::<u8>(),
                vars.parse::<u16>(),
                number.parse::<u64>(),
            ) {
                (Ok(width), Ok(vars), Ok(number)) => random::random(alloc, width, vars, number),
                _ => Ok(None),
            }
        }
        ["multipliers", bits, first, second] => {
            match (bits.parse::<u8>(), Order::of(first), Order::of(second)) {
                (Ok(bits), Some(first), Some(second)) => {
                    Ok(Some(multipliers::multipliers(alloc, bits, first, second)?))
                }
                _ => Ok(None),
            }
        }
        _ => Ok(None),
    }
}

/// Writes a clause on a line of its own.
fn say_clause(rt: &impl Print, clause: &Clause) -> io::Result<()> {
    for lit in clause.as_slice() {
        let variable = lit.variable().saturating_add(1);
        if lit.is_complement() {
            print!(rt; "-{variable} ")?;
        } else {
            print!(rt; "{variable} ")?;
        }
    }
    println!(rt; "0")
}

/// Writes the clauses, after a line that counts them.
fn say(rt: &impl Print, cnf: &Cnf) -> io::Result<()> {
    println!(rt; "p cnf {} {}", cnf.vars, cnf.clauses.len())?;
    for clause in cnf.clauses.as_slice() {
        say_clause(rt, clause)?;
    }
    Ok(())
}

fn main(rt: HostRuntime) -> io::Result<()> {
    let alloc = rt.alloc();
    let texts: Vec<String> = env::args(&rt)?.skip(1).collect(alloc)?;
    let mut words = Vec::new(alloc);
    for text in texts.as_slice() {
        words.push(text.as_str())?;
    }
    match instance(alloc, words.as_slice())? {
        Some(cnf) => say(&rt, &cnf),
        None => println!(rt;
            "sat_instances pigeons HOLES | random WIDTH VARS NUMBER | multipliers BITS ORDER ORDER"
        ),
    }
}

use kv_base::{NoMemory, Sequence};
use sat_clause::{Clauses, Cnf, Lit, Lits};
use std::alloc::Global;

/// The literal of this number, as DIMACS writes it: a variable from 1 on, with a minus for its complement.
fn lit(number: i8) -> Lit {
    let variable = u64::from(number.unsigned_abs()).saturating_sub(1);
    Lit::new(variable, number < 0)
}

/// Literals by their numbers in the DIMACS form.
pub fn lits(alloc: Global, numbers: &[i8]) -> Result<Lits, NoMemory> {
    let mut made = Sequence::new(alloc);
    for number in numbers {
        made.push(lit(*number))?;
    }
    Ok(made)
}

/// That no two of four pigeons sit in this hole.
fn push_hole(alloc: Global, clauses: &mut Clauses, hole: i8) -> Result<(), NoMemory> {
    for (one, two) in [(1i8, 4i8), (1, 7), (1, 10), (4, 7), (4, 10), (7, 10)] {
        let one = one.saturating_add(hole).saturating_neg();
        let two = two.saturating_add(hole).saturating_neg();
        clauses.push(lits(alloc, &[one, two])?)?;
    }
    Ok(())
}

/// Four pigeons and three holes: a variable says of each pigeon and hole that this one sits there.
pub fn pigeons(alloc: Global) -> Result<Cnf, NoMemory> {
    let mut clauses = Sequence::new(alloc);
    for holes in [[1i8, 2, 3], [4, 5, 6], [7, 8, 9], [10, 11, 12]] {
        clauses.push(lits(alloc, &holes)?)?;
    }
    for hole in 0..3i8 {
        push_hole(alloc, &mut clauses, hole)?;
    }
    Ok(Cnf { vars: 12, clauses })
}

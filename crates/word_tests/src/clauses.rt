//! The clauses of a table of gates.
use gate_clauses::gate_clauses;
use gate_core::Gates;
use kv_base::{NoMemory, Sequence};
use sat_clause::{Assignment, Clauses, is_true};
use std::alloc::Global;
use std::test::Fail;

/// Whether an assignment meets all clauses.
fn meets(clauses: &Clauses, assignment: &Assignment) -> bool {
    for clause in clauses.as_slice() {
        let mut is_met = false;
        for lit in clause.as_slice() {
            is_met |= is_true(*lit, assignment);
        }
        if !is_met {
            return false;
        }
    }
    true
}

/// The assignment of `count` variables that a number spells, the first one in the lowest bit.
fn spelled(alloc: Global, count: usize, number: u32) -> Result<Assignment, NoMemory> {
    let mut made = Sequence::new(alloc);
    let mut left = number;
    for _ in 0..count {
        made.push(left % 2 == 1)?;
        left /= 2;
    }
    Ok(made)
}

#[test]
fn one_assignment_for_each_pattern_meets_the_clauses(rt: HostRuntime) -> Result<(), Fail> {
    let alloc = rt.alloc();
    let mut gates = Gates::new(alloc);
    let a = gates.input()?;
    let b = gates.input()?;
    let both = gates.and(a, b)?;
    let odd = gates.xor(a, b)?;
    let _never = gates.and(both, odd)?;
    let clauses = gate_clauses(alloc, &gates)?;
    assert_eq!(rt; gates.len(), 5);
    let mut met = Sequence::new(alloc);
    for number in 0u32..32 {
        if meets(&clauses, &spelled(alloc, 5, number)?) {
            met.push(number)?;
        }
    }
    // a, b, a and b, a or b but not both, and both of these, from the lowest bit on.
    assert_eq!(rt; met.as_slice(), [0u32, 7, 9, 10].as_slice());
    Ok(())
}

use crate::tests::clauses::lits;
use kv_base::NoMemory;
use sat_core::{Answer, NeverPoll, Solver};
use std::alloc::Global;
use std::process::Abort;
use std::test::Fail;

/// Adds all clauses.
fn add_all(alloc: Global, solver: &mut Solver, clauses: &[&[i8]]) -> Result<(), NoMemory> {
    for clause in clauses {
        solver.add(&lits(alloc, clause)?)?;
    }
    Ok(())
}

/// Whether the clauses are met under the assumed literals.
fn is_sat(alloc: Global, solver: &mut Solver, assumed: &[i8]) -> Result<bool, NoMemory> {
    let assumed = lits(alloc, assumed)?;
    let answer = solver.solve(&assumed, 0, &mut NeverPoll::new())?;
    Ok(matches!(answer, Answer::Sat(_)))
}

/// Whether a refuted assumption has no part in the next answer.
fn leaves_them_behind(alloc: Global, solver: &mut Solver) -> Result<bool, NoMemory> {
    add_all(alloc, solver, &[&[1, 2]])?;
    let is_refuted = !is_sat(alloc, solver, &[-1, -2])?;
    Ok(is_refuted && is_sat(alloc, solver, &[])? && solver.log().is_empty())
}

#[test]
fn assumed_literals_are_left_behind(rt: HostRuntime) -> Result<(), Fail> {
    let are_left = leaves_them_behind(rt.alloc(), &mut Solver::new(rt.alloc()))?;
    assert!(rt; are_left);
    Ok(())
}

/// Whether clauses with a literal twice or complementary ones are taken.
fn takes_them(alloc: Global, solver: &mut Solver) -> Result<bool, NoMemory> {
    add_all(alloc, solver, &[&[1, -1], &[2, 2], &[-2, 3, 3, 1]])?;
    Ok(is_sat(alloc, solver, &[-1])? && !is_sat(alloc, solver, &[-1, -3])?)
}

#[test]
fn literals_twice_and_complements(rt: HostRuntime) -> Result<(), Fail> {
    let are_taken = takes_them(rt.alloc(), &mut Solver::new(rt.alloc()))?;
    assert!(rt; are_taken);
    Ok(())
}

/// Whether the empty clause is refuted.
fn refutes_the_empty(alloc: Global, solver: &mut Solver) -> Result<bool, NoMemory> {
    add_all(alloc, solver, &[&[], &[4]])?;
    Ok(!is_sat(alloc, solver, &[])?)
}

#[test]
fn the_empty_clause(rt: HostRuntime) -> Result<(), Fail> {
    let is_refuted = refutes_the_empty(rt.alloc(), &mut Solver::new(rt.alloc()))?;
    assert!(rt; is_refuted);
    Ok(())
}

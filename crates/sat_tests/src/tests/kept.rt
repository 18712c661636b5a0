use crate::tests::clauses::{lits, pigeons};
use kv_base::NoMemory;
use proof_checker::Checker;
use sat_clause::{Clauses, Log};
use sat_core::NeverPoll;
use sat_query::{Kept, KeptAnswer};
use std::alloc::Global;
use std::process::Abort;
use std::test::Fail;

/// Adds all clauses.
fn add_all(kept: &mut Kept, clauses: &Clauses) -> Result<(), NoMemory> {
    for clause in clauses.as_slice() {
        kept.add(clause)?;
    }
    Ok(())
}

/// What the solver answers under the literals.
fn asked(
    alloc: Global,
    kept: &mut Kept,
    numbers: &[i8],
    budget: u32,
) -> Result<KeptAnswer, NoMemory> {
    kept.ask(&lits(alloc, numbers)?, budget, &mut NeverPoll::new())
}

/// Whether the literals are refuted.
fn is_refuted(alloc: Global, kept: &mut Kept, numbers: &[i8]) -> Result<bool, NoMemory> {
    let answer = asked(alloc, kept, numbers, 0)?;
    Ok(matches!(&answer, KeptAnswer::Unsat))
}

/// Whether a budget of one clause is spent.
fn spends_one(alloc: Global, kept: &mut Kept) -> Result<bool, NoMemory> {
    let answer = asked(alloc, kept, &[], 1)?;
    Ok(matches!(&answer, KeptAnswer::Spent(log) if log.len() == 1))
}

/// Whether the clauses are met together with these literals, and the variable of number 2 is true then.
fn makes_2_true(alloc: Global, kept: &mut Kept, numbers: &[i8]) -> Result<bool, NoMemory> {
    let answer = asked(alloc, kept, numbers, 0)?;
    Ok(matches!(&answer, KeptAnswer::Sat(found) if found.get(1) == Some(&true)))
}

/// Whether a solver whose budget was spent still refutes the clauses.
fn spends_and_goes_on(alloc: Global, kept: &mut Kept) -> Result<bool, NoMemory> {
    add_all(kept, &pigeons(alloc)?.clauses)?;
    Ok(spends_one(alloc, kept)? && is_refuted(alloc, kept, &[])?)
}

#[test]
fn a_spent_budget_is_no_end(rt: HostRuntime) -> Result<(), Fail> {
    let goes_on = spends_and_goes_on(rt.alloc(), &mut Kept::new(rt.alloc()))?;
    assert!(rt; goes_on);
    Ok(())
}

/// Whether what was asked first has no part in the next answer.
fn keeps_apart(alloc: Global, kept: &mut Kept) -> Result<bool, NoMemory> {
    kept.add(&lits(alloc, &[-1, 2])?)?;
    Ok(is_refuted(alloc, kept, &[1, -2])? && makes_2_true(alloc, kept, &[1])?)
}

#[test]
fn questions_are_apart(rt: HostRuntime) -> Result<(), Fail> {
    let are_apart = keeps_apart(rt.alloc(), &mut Kept::new(rt.alloc()))?;
    assert!(rt; are_apart);
    Ok(())
}

/// Whether the checker refutes the literals.
fn refutes(alloc: Global, checker: &mut Checker, numbers: &[i8]) -> Result<bool, NoMemory> {
    checker.refutes(&lits(alloc, numbers)?)
}

/// Whether the checker learns a clause that follows, and uses it.
fn learns_2(alloc: Global, checker: &mut Checker) -> Result<bool, NoMemory> {
    checker.add(&lits(alloc, &[-1, 2])?)?;
    checker.add(&lits(alloc, &[1])?)?;
    let is_learnt = checker.learn(&lits(alloc, &[2])?)?;
    Ok(is_learnt && refutes(alloc, checker, &[-2])?)
}

#[test]
fn a_checker_learns(rt: HostRuntime) -> Result<(), Fail> {
    let is_learnt = learns_2(rt.alloc(), &mut Checker::new(rt.alloc()))?;
    assert!(rt; is_learnt);
    Ok(())
}

/// Whether the checker learns each clause of the log.
fn learns(checker: &mut Checker, log: &Log) -> Result<bool, NoMemory> {
    for clause in log.as_slice() {
        if !checker.learn(clause)? {
            return Ok(false);
        }
    }
    Ok(true)
}

/// Whether the checker, once it has the clauses, refutes the literals where it has learnt the log, and not before.
fn confirms(
    alloc: Global,
    checker: &mut Checker,
    clauses: &Clauses,
    log: &Log,
    numbers: &[i8],
) -> Result<bool, NoMemory> {
    for clause in clauses.as_slice() {
        checker.add(clause)?;
    }
    let is_early = refutes(alloc, checker, numbers)?;
    Ok(!is_early && learns(checker, log)? && refutes(alloc, checker, numbers)?)
}

/// Whether a checker confirms what the solver refutes.
fn is_confirmed(alloc: Global, kept: &mut Kept) -> Result<bool, NoMemory> {
    let clauses = pigeons(alloc)?.clauses;
    add_all(kept, &clauses)?;
    let is_refuted = is_refuted(alloc, kept, &[1])?;
    let is_confirmed = confirms(alloc, &mut Checker::new(alloc), &clauses, kept.log(), &[1])?;
    Ok(is_refuted && is_confirmed)
}

#[test]
fn a_checker_confirms_what_is_refuted(rt: HostRuntime) -> Result<(), Fail> {
    let is_confirmed = is_confirmed(rt.alloc(), &mut Kept::new(rt.alloc()))?;
    assert!(rt; is_confirmed);
    Ok(())
}

ghost use Rattle.std.specs.Prelude.{◌≡◌, false, IfOk};
ghost use Rattle.proof_checker.specs.Checking.{CheckSays};

use crate::checker::Checker;
use kv_base::NoMemory;
use sat_clause::{Clauses, Cnf, Log};
use std::alloc::Global;

/// What a log shows over the clauses that it began with.
#[derive(Clone, Copy, Debug, PartialEq, Eq)]
pub enum Checked {
    /// The empty clause stands in it, and every step up to that one follows: no assignment meets the clauses.
    Refutes,
    /// All steps follow, this many, and none is empty.
    Learns(usize),
    /// This step, counted from 0, is the first that doesn't follow.
    Bad { step: usize },
}

/// A checker of the clauses.
fn begin(alloc: Global, clauses: &Clauses) -> Result<Checker, NoMemory>
    ensures clauses { IfOk result (λ checker. checker.clauses ≡ clauses.now) }
    ensures working { IfOk result (λ checker. checker.refused ≡ false) }
{
    let mut checker = Checker::new(alloc);
    for clause in clauses.as_slice() {
        checker.add(clause)?;
    }
    Ok(checker)
}

/// Checks each step of the log in its order: whether it follows by unit propagation from the clauses and the steps
/// before it.
pub fn check(alloc: Global, cnf: &Cnf, log: &Log) -> Result<Checked, NoMemory>
    ensures { IfOk result (λ checked. CheckSays cnf.now.clauses log.now checked) }
{
    let mut checker = begin(alloc, &cnf.clauses)?;
    for (step, clause) in log.as_slice().iter().enumerate() {
        if !checker.learn(clause)? {
            return Ok(Checked::Bad { step });
        }
        if clause.is_empty() {
            return Ok(Checked::Refutes);
        }
    }
    Ok(Checked::Learns(log.len()))
}

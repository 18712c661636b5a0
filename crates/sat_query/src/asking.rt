ghost use Rattle.std.specs.Prelude.{ℕ, ◌≡◌, ◌+◌, ◌<◌, ◌≤◌, ◌++◌, ◌∷◌, ◌↔◌, [], false, length, IfOk, IsTrue, OnOk};
ghost use Rattle.sat_clause.specs.Literals.{ClausesAreBelow};
ghost use Rattle.proof_checker.specs.Checking.{IsLearnt, IsRefutation};
ghost use Rattle.sat_core.specs.Polling.{StaysReady, WasAsked};
ghost use Rattle.sat_query.specs.Asking.{AskedSays, IsClauseMet, IsConfirmed, IsMet, is_stopped, shown_learnt};

use kv_base::{NoMemory, Sequence};
use proof_checker::{Checked, check};
use sat_clause::{Assignment, Clause, Clauses, Cnf, Log, are_below, holds};
use sat_core::{Answer, Poll, Solver};
use std::alloc::Global;

/// What is answered about clauses.
#[derive(Debug, Drop)]
pub enum Asked {
    /// This assignment meets them, and has a value for each of their variables.
    Sat(Assignment),
    /// No assignment does: each clause of this log follows, the last is empty, and those before it are all new.
    Unsat(Log),
    /// The budget is spent on these clauses, which follow one after another and are all new.
    Spent(Log),
    /// The poll said yes.
    Stopped,
}

/// A solver of the clauses.
fn begin(alloc: Global, clauses: &Clauses) -> Result<Solver, NoMemory>
    ensures clauses { IfOk result (λ solver. solver.clauses ≡ clauses.now) }
    ensures log { IfOk result (λ solver. solver.log ≡ []) }
    ensures vars { IfOk result (λ solver. (n : ℕ) → ClausesAreBelow n clauses.now → solver.vars ≤ n) }
{
    let mut solver = Solver::new(alloc);
    for clause in clauses.as_slice() {
        solver.add(clause)?;
    }
    Ok(solver)
}

/// The log with the empty clause at its end.
fn ended(alloc: Global, log: Log) -> Result<Log, NoMemory>
    ensures { IfOk result (λ made. made ≡ log ++ [] ∷ []) }
{
    let mut made = log;
    made.push(Sequence::new(alloc))?;
    Ok(made)
}

/// Searches with a solver that has learnt nothing and has no more variables than its clauses.
fn search_with<P: Poll>(
    alloc: Global,
    solver: &mut Solver,
    budget: u32,
    poll: &mut P,
) -> Result<Asked, NoMemory>
    requires log { solver.old.log ≡ [] }
    requires vars { (n : ℕ) → ClausesAreBelow n solver.old.clauses → solver.old.vars ≤ n }
    requires poll { P.ready poll.old }
    ensures answer { IfOk result (λ asked. (n : ℕ) → AskedSays n solver.old.clauses budget asked) }
    ensures poll { StaysReady P.ready P.held poll.old poll.new }
    ensures asked { IfOk result (λ asked. WasAsked P.asks P.yeses poll.old poll.new (shown_learnt asked) (is_stopped asked)) }
{
    match solver.solve(&Sequence::new(alloc), budget, poll)? {
        Answer::Sat(found) => Ok(Asked::Sat(found)),
        Answer::Unsat => {
            let log = ended(alloc, solver.take_log())?;
            Ok(Asked::Unsat(log))
        }
        Answer::Spent => Ok(Asked::Spent(solver.take_log())),
        Answer::Stopped => Ok(Asked::Stopped),
    }
}

/// Whether the assignment has a value for each variable of the clause, and some literal of it is true.
fn is_met(clause: &Clause, assignment: &Assignment) -> bool
    ensures { IsTrue result ↔ IsClauseMet clause.now assignment.now }
{
    are_below(clause, assignment.len() as u64) && holds(clause, assignment)
}

/// Whether the assignment meets each of the clauses.
fn are_met(clauses: &Clauses, assignment: &Assignment) -> bool
    ensures { IsTrue result ↔ IsMet clauses.now assignment.now }
{
    clauses
        .as_slice()
        .iter()
        .all(|clause| is_met(clause, assignment))
}

/// Whether the log is checked to refute the clauses.
fn refutes(alloc: Global, cnf: &Cnf, log: &Log) -> Result<bool, NoMemory>
    ensures { IfOk result (λ refuted. IsTrue refuted ↔ IsRefutation cnf.now.clauses log.now) }
{
    let checked = check(alloc, cnf, log)?;
    Ok(matches!(checked, Checked::Refutes))
}

/// Whether the log is checked to have as many clauses as the budget, all of which follow and none of which is empty.
fn spends(alloc: Global, cnf: &Cnf, log: &Log, budget: u32) -> Result<bool, NoMemory>
    ensures { IfOk result (λ spent. IsTrue spent ↔ IsLearnt cnf.now.clauses log.now budget) }
{
    let checked = check(alloc, cnf, log)?;
    Ok(matches!(checked, Checked::Learns(many) if many == budget as usize))
}

/// Whether the answer is confirmed by evaluating its assignment or checking its log, which it always is.
fn is_confirmed(alloc: Global, cnf: &Cnf, budget: u32, asked: &Asked) -> Result<bool, NoMemory>
    ensures exact { IfOk result (λ confirmed. IsTrue confirmed ↔ IsConfirmed cnf.now.clauses budget asked.now) }
    ensures always { AskedSays cnf.now.vars cnf.now.clauses budget asked.now → IfOk result IsTrue }
{
    match asked {
        Asked::Sat(found) => Ok(are_met(&cnf.clauses, found)),
        Asked::Unsat(log) => refutes(alloc, cnf, log),
        Asked::Spent(log) => spends(alloc, cnf, log, budget),
        Asked::Stopped => Ok(true),
    }
}

/// Searches for an assignment that meets the clauses, with a budget of clauses to learn, none where it is 0. The poll
/// is asked at least once for each clause learnt, and a yes is the last ask. Before it answers, it evaluates the
/// assignment on each clause, or checks the log.
pub fn ask<P: Poll>(alloc: Global, cnf: &Cnf, budget: u32, poll: &mut P) -> Result<Asked, NoMemory>
    requires { P.ready poll.old }
    ensures answer { IfOk result (λ asked. AskedSays cnf.now.vars cnf.now.clauses budget asked) }
    ensures poll { StaysReady P.ready P.held poll.old poll.new }
    ensures asked { IfOk result (λ asked. WasAsked P.asks P.yeses poll.old poll.new (shown_learnt asked) (is_stopped asked)) }
{
    let asked = search_with(alloc, &mut begin(alloc, &cnf.clauses)?, budget, poll)?;
    // Each answer is proved to be confirmed. The test is there for a program that was compiled wrongly, and an
    // `unreachable!` in it would let the compiler leave it out.
    if !is_confirmed(alloc, cnf, budget, &asked)? {
        return Err(NoMemory);
    }
    Ok(asked)
}

ghost use Rattle.std.specs.Prelude.{ℕ, ◌≡◌, ◌+◌, ◌-◌, ◌/◌, ◌<◌, ◌≤◌, ◌++◌, ◌∷◌, [], List, length, drop, true, false, IsErr, IfOk, OnOk, OnErr};
ghost use Rattle.sat_clause.specs.Literals.{AreBelow};
ghost use Rattle.sat_engine.specs.Look.{InRange};
ghost use Rattle.sat_core.specs.Finding.{IsIdle, IsKept};
ghost use Rattle.sat_core.specs.Solving.{Learns, IsAnswer, IsLearnt, IsRoom, AnswerSays, is_stopped};
ghost use Rattle.sat_core.specs.Polling.{StaysReady, WasAsked};

use crate::assignment::assignment;
use crate::find::{Found, find};
use crate::poll::Poll;
use crate::setup::{empty, fit, insert, retreat};
use kv_base::{NoMemory, Sequence};
use sat_clause::{Assignment, Clause, Lit, Lits, Log};
use sat_engine::{Store, narrow};
use sat_search::Parts;
use std::alloc::Global;
use std::marker::Model;

/// What a solver answers.
#[derive(Debug, Drop)]
pub enum Answer {
    /// This assignment meets all clauses, and the assumed literals are true.
    Sat(Assignment),
    /// No assignment does: propagating the assumed literals over the clauses added and learnt reaches one with every
    /// literal false, or two of them are complementary.
    Unsat,
    /// The budget is spent: exactly that many clauses were learnt.
    Spent,
    /// The poll said yes.
    Stopped,
}

/// Clauses, and what was learnt from them. Contracts see the clauses added and learnt, in this order, those learnt, the
/// number of variables that there is room for, and whether it was refused memory: then it answers `NoMemory` from then
/// on.
#[derive(Drop)]
pub struct Solver {
    alloc: Global,
    parts: Parts,
    log: Log,
    is_refuted: bool,
    is_refused: bool,
}

impl Model for Solver {
    ghost use Rattle.std.specs.Prelude.{◌≡◌, ◌/◌, length, false};
    ghost use Rattle.sat_core.specs.Held.{Held};
    ghost use Rattle.sat_core.specs.Finding.{IsKept};

    ghost Value = { Held };

    ghost view = { λ s. record { clauses = s.parts.store; log = s.log; vars = length s.parts.trail.truth.items / 2; refused = s.is_refused } };

    ghost invariant = { λ s. s.is_refused ≡ false → IsKept s.parts s.is_refuted };
}

/// The answer for what was found, with the truths where the search stands.
fn answer_of(alloc: Global, truth: &[bool], found: Found) -> Result<Answer, NoMemory>
    ensures { IfOk result (λ answer. IsAnswer truth.now found answer) }
{
    match found {
        Found::Sat => Ok(Answer::Sat(assignment(alloc, truth)?)),
        Found::Unsat => Ok(Answer::Unsat),
        Found::Spent => Ok(Answer::Spent),
        Found::Stopped => Ok(Answer::Stopped),
    }
}

/// Searches under the assumed literals, and leaves nothing set but what follows from the clauses alone.
fn search<P: Poll>(
    alloc: Global,
    parts: &mut Parts,
    assumed: &[u32],
    budget: u32,
    poll: &mut P,
) -> Result<Answer, NoMemory>
    requires idle { IsIdle parts.old }
    requires poll { P.ready poll.old }
    ensures idle { OnOk result (IsIdle parts.new) }
    ensures room { OnOk result (IsRoom assumed.now (length parts.old.trail.truth.items / 2) (length parts.new.trail.truth.items / 2)) }
    ensures learnt { OnOk result (IsLearnt (length parts.new.trail.truth.items / 2) parts.old.store parts.new.store) }
    ensures within { OnOk result (0 < budget → length parts.new.store ≤ length parts.old.store + budget) }
    ensures answer { IfOk result (λ answer. AnswerSays (length parts.new.trail.truth.items / 2) parts.old.store parts.new.store assumed.now budget answer) }
    ensures poll { StaysReady P.ready P.held poll.old poll.new }
    ensures asked { IfOk result (λ answer. WasAsked P.asks P.yeses poll.old poll.new (length parts.new.store - length parts.old.store) (is_stopped answer)) }
{
    fit(alloc, parts, assumed)?;
    let found = find(alloc, parts, assumed, budget, poll)?;
    let answer = answer_of(alloc, &parts.trail.truth, found)?;
    retreat(parts, assumed);
    Ok(answer)
}

/// The clause with these literals.
fn clause_of(alloc: Global, lits: &[u32]) -> Result<Clause, NoMemory>
    ensures { IfOk result (λ clause. clause ≡ lits.now) }
{
    let mut made = Vec::with_capacity(alloc, lits.len())?;
    for lit in lits {
        made.push(Lit::from_number(u64::from(*lit)))?;
    }
    Ok(Sequence::from_vec(made))
}

/// Logs the clauses of the store from this one on.
fn log_from(alloc: Global, log: &mut Log, store: &Store, from: usize) -> Result<(), NoMemory>
    requires { from ≤ length store.now }
    ensures { OnOk result (log.new ≡ log.old ++ drop from store.now) }
{
    for number in from..store.len() {
        log.push(clause_of(alloc, store.get(number))?)?;
    }
    Ok(())
}

/// Adds a clause, and answers whether the clauses are refuted then.
fn add_to(
    alloc: Global,
    parts: &mut Parts,
    is_refuted: bool,
    clause: &Clause,
) -> Result<bool, NoMemory>
    requires { IsKept parts.old is_refuted }
    ensures kept { IfOk result (λ refuted. IsKept parts.new refuted) }
    ensures store { OnOk result (parts.new.store ≡ parts.old.store ++ clause.now ∷ []) }
    ensures room { OnOk result (IsRoom clause.now (length parts.old.trail.truth.items / 2) (length parts.new.trail.truth.items / 2)) }
{
    let lits = narrow(alloc, clause.as_slice())?;
    if is_refuted {
        parts.store.push(lits.as_slice())?;
        return Ok(true);
    }
    let refuted = insert(alloc, parts, lits.as_slice())?;
    Ok(refuted)
}

impl Solver {
    /// No clauses. It takes no memory.
    pub fn new(alloc: Global) -> Solver
        ensures { result ≡ record { clauses = []; log = []; vars = 0; refused = false } }
    {
        Solver {
            alloc,
            parts: empty(alloc),
            log: Sequence::new(alloc),
            is_refuted: false,
            is_refused: false,
        }
    }

    /// Adds a clause. It may be empty, and have a literal twice, or complementary ones.
    pub fn add(&mut self, clause: &Clause) -> Result<(), NoMemory>
        ensures clauses { OnOk result (self.new.clauses ≡ self.old.clauses ++ clause.now ∷ []) }
        ensures log { OnOk result (self.new.log ≡ self.old.log) }
        ensures vars { OnOk result (IsRoom clause.now self.old.vars self.new.vars) }
        ensures working { OnOk result (self.new.refused ≡ false) }
        ensures broken { OnErr result (self.new.refused ≡ true) }
        ensures refused { self.old.refused ≡ true → IsErr result }
    {
        if self.is_refused {
            return Err(NoMemory);
        }
        self.is_refused = true;
        let refuted = add_to(self.alloc, &mut self.parts, self.is_refuted, clause)?;
        self.is_refuted = refuted;
        self.is_refused = false;
        Ok(())
    }

    /// Searches for an assignment that meets all clauses and makes the assumed literals true. With a budget above 0 it
    /// ends once it has learnt that many clauses; the poll is asked at least once for each clause learnt, and a yes is
    /// the last ask.
    pub fn solve<P: Poll>(
        &mut self,
        assumed: &Lits,
        budget: u32,
        poll: &mut P,
    ) -> Result<Answer, NoMemory>
        requires { P.ready poll.old }
        ensures learns { OnOk result (Learns self.old self.new budget) }
        ensures vars { OnOk result (IsRoom assumed.now self.old.vars self.new.vars) }
        ensures answer { IfOk result (λ answer. AnswerSays self.new.vars self.old.clauses self.new.clauses assumed.now budget answer) }
        ensures working { OnOk result (self.new.refused ≡ false) }
        ensures broken { OnErr result (self.new.refused ≡ true) }
        ensures refused { self.old.refused ≡ true → IsErr result }
        ensures poll { StaysReady P.ready P.held poll.old poll.new }
        ensures asked { IfOk result (λ answer. WasAsked P.asks P.yeses poll.old poll.new (length self.new.clauses - length self.old.clauses) (is_stopped answer)) }
    {
        if self.is_refused {
            return Err(NoMemory);
        }
        self.is_refused = true;
        let lits = narrow(self.alloc, assumed.as_slice())?;
        if self.is_refuted {
            self.is_refused = false;
            return Ok(Answer::Unsat);
        }
        let old = self.parts.store.len();
        let answer = search(self.alloc, &mut self.parts, lits.as_slice(), budget, poll)?;
        log_from(self.alloc, &mut self.log, &self.parts.store, old)?;
        self.is_refused = false;
        Ok(answer)
    }

    /// The clauses that were learnt, in the order in which they were.
    pub fn log(&self) -> &Log
        ensures { result.now ≡ self.now.log }
    {
        &self.log
    }

    /// Hands out the clauses that were learnt, in the order in which they were. The log begins anew.
    pub fn take_log(&mut self) -> Log
        ensures log { result ≡ self.old.log }
        ensures rest { self.new ≡ record self.old { log = [] } }
    {
        std::mem::replace(&mut self.log, Sequence::new(self.alloc))
    }
}

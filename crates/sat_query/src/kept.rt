ghost use Rattle.std.specs.Prelude.{ℕ, ◌≡◌, ◌-◌, ◌≤◌, ◌++◌, ◌∷◌, [], length, true, false, IsErr, IfOk, OnOk, OnErr};
ghost use Rattle.sat_core.specs.Polling.{StaysReady, WasAsked};
ghost use Rattle.sat_core.specs.Solving.{IsRoom, Learns};
ghost use Rattle.sat_query.specs.Keeping.{KeptSays, is_stopped};

use kv_base::{Copied, NoMemory};
use sat_clause::{Assignment, Clause, Lits, Log};
use sat_core::{Answer, Poll, Solver};
use std::alloc::Global;
use std::marker::Model;

/// What a kept solver answers.
#[derive(Debug, Drop)]
pub enum KeptAnswer {
    /// This assignment has a value for each variable, it meets all clauses added and learnt, and the asked literals are
    /// true.
    Sat(Assignment),
    /// No assignment does: propagating the asked literals over the clauses added and learnt reaches one with every
    /// literal false, or two of them are complementary.
    Unsat,
    /// The budget is spent: the whole log, which grew by that many clauses.
    Spent(Log),
    /// The poll said yes.
    Stopped,
}

/// A solver that is kept from one question to the next. Contracts see what a `Solver` shows; once it was refused
/// memory, it answers `NoMemory` from then on.
#[derive(Drop)]
pub struct Kept {
    alloc: Global,
    solver: Solver,
    is_refused: bool,
}

impl Model for Kept {
    ghost use Rattle.std.specs.Prelude.{◌≡◌, false};
    ghost use Rattle.sat_core.specs.Held.{Held};

    ghost Value = { Held };

    ghost view = { λ k. record { clauses = k.solver.clauses; log = k.solver.log; vars = k.solver.vars; refused = k.is_refused } };
}

/// Asks the solver.
fn asked_of<P: Poll>(
    alloc: Global,
    solver: &mut Solver,
    asked: &Lits,
    budget: u32,
    poll: &mut P,
) -> Result<KeptAnswer, NoMemory>
    requires { P.ready poll.old }
    ensures learns { OnOk result (Learns solver.old solver.new budget) }
    ensures vars { OnOk result (IsRoom asked.now solver.old.vars solver.new.vars) }
    ensures answer { IfOk result (λ answer. KeptSays solver.new.vars solver.old.clauses solver.new.clauses solver.old.log solver.new.log asked.now budget answer) }
    ensures poll { StaysReady P.ready P.held poll.old poll.new }
    ensures asked { IfOk result (λ answer. WasAsked P.asks P.yeses poll.old poll.new (length solver.new.clauses - length solver.old.clauses) (is_stopped answer)) }
{
    match solver.solve(asked, budget, poll)? {
        Answer::Sat(found) => Ok(KeptAnswer::Sat(found)),
        Answer::Unsat => Ok(KeptAnswer::Unsat),
        Answer::Spent => Ok(KeptAnswer::Spent(solver.log().copy(alloc)?)),
        Answer::Stopped => Ok(KeptAnswer::Stopped),
    }
}

impl Kept {
    /// No clauses. It takes no memory.
    pub fn new(alloc: Global) -> Kept
        ensures { result ≡ record { clauses = []; log = []; vars = 0; refused = false } }
    {
        Kept {
            alloc,
            solver: Solver::new(alloc),
            is_refused: false,
        }
    }

    /// Adds a clause.
    pub fn add(&mut self, clause: &Clause) -> Result<(), NoMemory>
        ensures clauses { OnOk result (self.new.clauses ≡ self.old.clauses ++ clause.now ∷ []) }
        ensures log { OnOk result (self.new.log ≡ self.old.log) }
        ensures vars { OnOk result (IsRoom clause.now self.old.vars self.new.vars) }
        ensures working { OnOk result (self.new.refused ≡ false) }
        ensures broken { OnErr result (self.new.refused ≡ true) }
        ensures refused { self.old.refused ≡ true → IsErr result }
    {
        if self.is_refused {
            return Err(NoMemory);
        }
        self.is_refused = true;
        self.solver.add(clause)?;
        self.is_refused = false;
        Ok(())
    }

    /// Searches for an assignment that meets all clauses and makes the asked literals true, with a budget of clauses to
    /// learn, none where it is 0. A yes of the poll is its last ask. A checker with the clauses added and learnt
    /// confirms an `Unsat`.
    pub fn ask<P: Poll>(
        &mut self,
        asked: &Lits,
        budget: u32,
        poll: &mut P,
    ) -> Result<KeptAnswer, NoMemory>
        requires { P.ready poll.old }
        ensures learns { OnOk result (Learns self.old self.new budget) }
        ensures vars { OnOk result (IsRoom asked.now self.old.vars self.new.vars) }
        ensures answer { IfOk result (λ answer. KeptSays self.new.vars self.old.clauses self.new.clauses self.old.log self.new.log asked.now budget answer) }
        ensures working { OnOk result (self.new.refused ≡ false) }
        ensures broken { OnErr result (self.new.refused ≡ true) }
        ensures refused { self.old.refused ≡ true → IsErr result }
        ensures poll { StaysReady P.ready P.held poll.old poll.new }
        ensures asked { IfOk result (λ answer. WasAsked P.asks P.yeses poll.old poll.new (length self.new.clauses - length self.old.clauses) (is_stopped answer)) }
    {
        if self.is_refused {
            return Err(NoMemory);
        }
        self.is_refused = true;
        let answer = asked_of(self.alloc, &mut self.solver, asked, budget, poll)?;
        self.is_refused = false;
        Ok(answer)
    }

    /// The clauses that were learnt, in the order in which they were.
    pub fn log(&self) -> &Log
        ensures { result.now ≡ self.now.log }
    {
        self.solver.log()
    }
}

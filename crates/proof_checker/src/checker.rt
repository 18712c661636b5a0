ghost use Rattle.std.specs.Prelude.{◌≡◌, ◌↔◌, ◌++◌, ◌∷◌, [], map, true, false, IsTrue, IsErr, IfOk, OnOk, OnErr, if◌then◌else◌};
ghost use Rattle.sat_clause.specs.Literals.{complement_of};
ghost use Rattle.sat_clause.specs.Propagation.{Follows, Refuted};
ghost use Rattle.proof_checker.specs.Parts.{IsReady};

use crate::parts::{Parts, empty, fit, insert, refuted};
use crate::tiers::Origin;
use kv_base::NoMemory;
use sat_clause::{Clause, Lits};
use sat_engine::{complement, narrow};
use std::alloc::Global;
use std::marker::Model;

/// A checker that grows: clauses are added, and learnt where they follow. Contracts see the clauses added and learnt, in
/// this order, and whether it was refused memory: then it answers `NoMemory` from then on.
#[derive(Drop)]
pub struct Checker {
    alloc: Global,
    parts: Parts,
    is_refused: bool,
}

impl Model for Checker {
    ghost use Rattle.std.specs.Prelude.{◌≡◌, false};
    ghost use Rattle.proof_checker.specs.Known.{Known};

    ghost Value = { Known };

    ghost use Rattle.proof_checker.specs.Parts.{IsReady};

    ghost view = { λ c. record { clauses = c.parts.store; refused = c.is_refused } };

    ghost invariant = { λ c. c.is_refused ≡ false → IsReady c.parts };
}

/// The complements of the literals.
fn complements(alloc: Global, lits: &[u32]) -> Result<Vec<u32>, NoMemory>
    ensures { IfOk result (λ made. made.items ≡ map complement_of lits.now) }
{
    let mut made = Vec::with_capacity(alloc, lits.len())?;
    for lit in lits {
        made.push(complement(*lit))?;
    }
    Ok(made)
}

/// Adds a clause to the parts.
fn add_to(alloc: Global, parts: &mut Parts, origin: Origin, clause: &Clause) -> Result<(), NoMemory>
    requires { IsReady parts.old }
    ensures ready { OnOk result (IsReady parts.new) }
    ensures store { OnOk result (parts.new.store ≡ parts.old.store ++ clause.now ∷ []) }
{
    let lits = narrow(alloc, clause.as_slice())?;
    fit(alloc, parts, lits.as_slice())?;
    insert(alloc, parts, origin, lits.as_slice())
}

/// Whether propagating the asked literals over the clauses refutes them.
fn refuted_in(alloc: Global, parts: &mut Parts, asked: &[u32]) -> Result<bool, NoMemory>
    requires { IsReady parts.old }
    ensures exact { IfOk result (λ b. IsTrue b ↔ Refuted parts.old.store asked.now) }
    ensures ready { OnOk result (IsReady parts.new) }
    ensures store { OnOk result (parts.new.store ≡ parts.old.store) }
{
    fit(alloc, parts, asked)?;
    refuted(alloc, parts, asked)
}

/// Whether the clause follows from the clauses by propagation.
fn follows_in(alloc: Global, parts: &mut Parts, clause: &Clause) -> Result<bool, NoMemory>
    requires { IsReady parts.old }
    ensures exact { IfOk result (λ b. IsTrue b ↔ Follows parts.old.store clause.now) }
    ensures ready { OnOk result (IsReady parts.new) }
    ensures store { OnOk result (parts.new.store ≡ parts.old.store) }
{
    let lits = narrow(alloc, clause.as_slice())?;
    let asked = complements(alloc, lits.as_slice())?;
    refuted_in(alloc, parts, asked.as_slice())
}

impl Checker {
    /// No clauses. It takes no memory.
    pub fn new(alloc: Global) -> Checker
        ensures clauses { result.clauses ≡ [] }
        ensures refused { result.refused ≡ false }
    {
        Checker {
            alloc,
            parts: empty(alloc),
            is_refused: false,
        }
    }

    /// Adds a clause.
    pub fn add(&mut self, clause: &Clause) -> Result<(), NoMemory>
        ensures clauses { OnOk result (self.new.clauses ≡ self.old.clauses ++ clause.now ∷ []) }
        ensures working { OnOk result (self.new.refused ≡ false) }
        ensures broken { OnErr result (self.new.refused ≡ true) }
        ensures refused { self.old.refused ≡ true → IsErr result }
    {
        if self.is_refused {
            return Err(NoMemory);
        }
        self.is_refused = true;
        add_to(self.alloc, &mut self.parts, Origin::Added, clause)?;
        self.is_refused = false;
        Ok(())
    }

    /// Learns a clause: true exactly where it follows by unit propagation from those added and learnt so far, and then
    /// it is among those learnt.
    pub fn learn(&mut self, clause: &Clause) -> Result<bool, NoMemory>
        ensures exact { IfOk result (λ learnt. IsTrue learnt ↔ Follows self.old.clauses clause.now) }
        ensures clauses { IfOk result (λ learnt. self.new.clauses ≡ (if learnt then self.old.clauses ++ clause.now ∷ [] else self.old.clauses)) }
        ensures working { OnOk result (self.new.refused ≡ false) }
        ensures broken { OnErr result (self.new.refused ≡ true) }
        ensures refused { self.old.refused ≡ true → IsErr result }
    {
        if self.is_refused {
            return Err(NoMemory);
        }
        self.is_refused = true;
        if !follows_in(self.alloc, &mut self.parts, clause)? {
            self.is_refused = false;
            return Ok(false);
        }
        add_to(self.alloc, &mut self.parts, Origin::Learnt, clause)?;
        self.is_refused = false;
        Ok(true)
    }

    /// Whether propagating the asked literals over the clauses reaches one with every literal false, or two asked
    /// literals are complementary.
    pub fn refutes(&mut self, asked: &Lits) -> Result<bool, NoMemory>
        ensures exact { IfOk result (λ refuted. IsTrue refuted ↔ Refuted self.old.clauses asked.now) }
        ensures clauses { OnOk result (self.new.clauses ≡ self.old.clauses) }
        ensures working { OnOk result (self.new.refused ≡ false) }
        ensures broken { OnErr result (self.new.refused ≡ true) }
        ensures refused { self.old.refused ≡ true → IsErr result }
    {
        if self.is_refused {
            return Err(NoMemory);
        }
        self.is_refused = true;
        let lits = narrow(self.alloc, asked.as_slice())?;
        let refuted = refuted_in(self.alloc, &mut self.parts, lits.as_slice())?;
        self.is_refused = false;
        Ok(refuted)
    }
}

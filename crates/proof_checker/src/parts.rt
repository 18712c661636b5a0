ghost use Rattle.std.specs.Prelude.{◌≡◌, ◌↔◌, ◌<◌, ◌≤◌, ◌++◌, ◌∷◌, [], length, IsTrue, IfOk, OnOk};
ghost use Rattle.std.specs.List.{Contains};
ghost use Rattle.sat_clause.specs.Literals.{complement_of};
ghost use Rattle.sat_clause.specs.Propagation.{clause_at, Refuted};
ghost use Rattle.sat_engine.specs.Look.{InRange, AreFalseBut};
ghost use Rattle.sat_engine.specs.Trail.{IsSet};
ghost use Rattle.proof_checker.specs.Parts.{IsReady};

use crate::refute::refute;
use crate::scan::{Class, classify};
use crate::tiers::{Origin, Tiers};
use kv_base::NoMemory;
use sat_engine::{Reason, Store, Trail, open_pair, room_for};
use std::alloc::Global;

/// What the checker works on: the clauses, the literals that follow from them alone, the tiers, and whether the
/// clauses are refuted already.
#[derive(Drop)]
pub struct Parts {
    pub store: Store,
    pub trail: Trail,
    pub tiers: Tiers,
    pub is_refuted: bool,
}

/// No clauses. It takes no memory.
pub fn empty(alloc: Global) -> Parts
    ensures ready { IsReady result }
    ensures store { result.store ≡ [] }
{
    Parts {
        store: Store::new(alloc),
        trail: Trail::new(alloc),
        tiers: Tiers::new(alloc),
        is_refuted: false,
    }
}

/// Makes room for the variables of the literals.
pub fn fit(alloc: Global, parts: &mut Parts, lits: &[u32]) -> Result<(), NoMemory>
    requires { IsReady parts.old }
    ensures ready { OnOk result (IsReady parts.new) }
    ensures store { OnOk result (parts.new.store ≡ parts.old.store) }
    ensures room { OnOk result (InRange lits.now (length parts.new.trail.truth.items)) }
{
    let room = room_for(lits, parts.trail.truth.len());
    'rooms: while parts.trail.truth.len() < room {
        parts.trail.widen()?;
        parts.tiers.widen(alloc)?;
    }
    Ok(())
}

/// Sets true a literal that follows from its clause alone, and propagates it.
fn settle(alloc: Global, parts: &mut Parts, clause: u32, lit: u32) -> Result<(), NoMemory>
    requires ready { IsReady parts.old }
    requires clause { clause < length parts.old.store }
    requires literal { Contains (clause_at parts.old.store clause) lit }
    requires others { AreFalseBut (clause_at parts.old.store clause) parts.old.trail.truth.items lit }
    requires unset { IsSet parts.old.trail.truth.items lit → ⊥ }
    requires free { IsSet parts.old.trail.truth.items (complement_of lit) → ⊥ }
    ensures ready { OnOk result (IsReady parts.new) }
    ensures store { OnOk result (parts.new.store ≡ parts.old.store) }
{
    let from = parts.trail.steps.len();
    parts.trail.push(lit, Reason::Clause(clause))?;
    match parts
        .tiers
        .propagate(alloc, &parts.store, &mut parts.trail, from)?
    {
        None => Ok(()),
        Some(_) => {
            parts.is_refuted = true;
            Ok(())
        }
    }
}

/// Stores the clause, and gives its number.
fn append(parts: &mut Parts, clause: &[u32]) -> Result<u32, NoMemory>
    requires ready { IsReady parts.old }
    requires room { InRange clause.now (length parts.old.trail.truth.items) }
    ensures ready { OnOk result (IsReady parts.new) }
    ensures store { OnOk result (parts.new.store ≡ parts.old.store ++ clause.now ∷ []) }
    ensures trail { OnOk result (parts.new.trail ≡ parts.old.trail) }
    ensures number { IfOk result (λ n. n ≡ length parts.old.store) }
{
    let number = parts.store.len();
    if number >= 4294967295 {
        return Err(NoMemory);
    }
    parts.store.push(clause)?;
    Ok(number as u32)
}

/// Adds a clause.
pub fn insert(
    alloc: Global,
    parts: &mut Parts,
    origin: Origin,
    clause: &[u32],
) -> Result<(), NoMemory>
    requires ready { IsReady parts.old }
    requires room { InRange clause.now (length parts.old.trail.truth.items) }
    ensures ready { OnOk result (IsReady parts.new) }
    ensures store { OnOk result (parts.new.store ≡ parts.old.store ++ clause.now ∷ []) }
{
    let number = append(parts, clause)?;
    match classify(clause, &parts.trail.truth) {
        Class::Settled => match open_pair(clause, &parts.trail.truth) {
            Some((one, two)) => {
                let (store, tiers) = (&parts.store, &mut parts.tiers);
                tiers.add(alloc, store, origin, number, one, two)
            }
            None => Ok(()),
        },
        Class::Unit(lit) => settle(alloc, parts, number, lit),
        Class::False => {
            parts.is_refuted = true;
            Ok(())
        }
    }
}

/// Whether propagating the asked literals over the clauses reaches a false clause, or two of them are complementary.
pub fn refuted(alloc: Global, parts: &mut Parts, asked: &[u32]) -> Result<bool, NoMemory>
    requires ready { IsReady parts.old }
    requires room { InRange asked.now (length parts.old.trail.truth.items) }
    ensures exact { IfOk result (λ b. IsTrue b ↔ Refuted parts.old.store asked.now) }
    ensures ready { OnOk result (IsReady parts.new) }
    ensures store { OnOk result (parts.new.store ≡ parts.old.store) }
    ensures size { OnOk result (length parts.new.trail.truth.items ≡ length parts.old.trail.truth.items) }
{
    if parts.is_refuted {
        return Ok(true);
    }
    refute(
        alloc,
        &parts.store,
        &mut parts.trail,
        &mut parts.tiers,
        asked,
    )
}

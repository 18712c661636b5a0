ghost use Rattle.std.specs.Prelude.{◌≡◌, ℕ, ◌+◌, ◌*◌, ◌<◌, ◌≤◌, ◌++◌, ◌∷◌, [], List, length, max, true, IfOk, OnOk};
ghost use Rattle.sat_clause.specs.Propagation.{clause_at};
ghost use Rattle.sat_engine.specs.Look.{InRange};
ghost use Rattle.sat_search.specs.State.{IsReady};
ghost use Rattle.sat_core.specs.Finding.{IsIdle, IsKept, AreWider};

use kv_base::NoMemory;
use sat_engine::{Seen, Store, Trail, Watches, imply, look_at, open_pair, room_for};
use sat_index::{Index, record_clause};
use sat_search::{Guide, Parts, rewind};
use std::alloc::Global;

/// The greatest number of literals.
const MOST: usize = 4294967294;

/// No clauses. It takes no memory.
pub fn empty(alloc: Global) -> Parts
    ensures idle { IsIdle result }
    ensures store { result.store ≡ [] }
    ensures size { length result.trail.truth.items ≡ 0 }
{
    Parts {
        store: Store::new(alloc),
        trail: Trail::new(alloc),
        watches: Watches::new(alloc),
        index: Index::new(alloc),
        marks: Vec::new(alloc),
        flags: Vec::new(alloc),
        start: 0,
        guide: Guide::new(alloc),
    }
}

/// Makes room for a further variable.
fn widen(alloc: Global, parts: &mut Parts) -> Result<(), NoMemory>
    requires idle { IsIdle parts.old }
    ensures idle { OnOk result (IsIdle parts.new) }
    ensures store { OnOk result (parts.new.store ≡ parts.old.store) }
    ensures size { OnOk result (length parts.new.trail.truth.items ≡ length parts.old.trail.truth.items + 2) }
{
    if parts.trail.truth.len() >= MOST {
        return Err(NoMemory);
    }
    parts.guide.widen()?;
    parts.index.grow(alloc)?;
    parts.index.grow(alloc)?;
    parts.marks.push(false)?;
    parts.flags.extend_from_slice(&[false, false])?;
    parts.watches.widen(alloc)?;
    parts.trail.widen()?;
    Ok(())
}

/// Makes room for the variables of the literals.
pub fn fit(alloc: Global, parts: &mut Parts, lits: &[u32]) -> Result<(), NoMemory>
    requires idle { IsIdle parts.old }
    ensures idle { OnOk result (IsIdle parts.new) }
    ensures store { OnOk result (parts.new.store ≡ parts.old.store) }
    ensures wider { OnOk result (AreWider lits.now (length parts.old.trail.truth.items) (length parts.new.trail.truth.items)) }
{
    let room = room_for(lits, parts.trail.truth.len());
    'rooms: while parts.trail.truth.len() < room {
        widen(alloc, parts)?;
    }
    Ok(())
}

/// Sets true the one literal of a clause that isn't false, where there is only one, and answers whether all are false.
fn settle(parts: &mut Parts, clause: &[u32], number: u32) -> Result<bool, NoMemory>
    requires idle { IsIdle parts.old }
    requires number { number < length parts.old.store }
    requires clause { clause.now ≡ clause_at parts.old.store number }
    ensures kept { IfOk result (λ refuted. IsKept parts.new refuted) }
    ensures store { parts.new.store ≡ parts.old.store }
    ensures size { length parts.new.trail.truth.items ≡ length parts.old.trail.truth.items }
{
    let Seen::Open(lit) = look_at(clause, &parts.trail.truth, u32::MAX) else {
        return Ok(false);
    };
    match look_at(clause, &parts.trail.truth, lit) {
        Seen::Unit => {
            let refuted = imply(&parts.store, &mut parts.trail, number, lit)?;
            parts.start = parts.trail.steps.len();
            Ok(refuted)
        }
        _ => Ok(false),
    }
}

/// Stores a clause that isn't empty, and answers whether all its literals are false.
fn insert_some(parts: &mut Parts, clause: &[u32]) -> Result<bool, NoMemory>
    requires some { 0 < length clause.now }
    requires idle { IsIdle parts.old }
    requires range { InRange clause.now (length parts.old.trail.truth.items) }
    ensures kept { IfOk result (λ refuted. IsKept parts.new refuted) }
    ensures store { OnOk result (parts.new.store ≡ parts.old.store ++ clause.now ∷ []) }
    ensures size { OnOk result (length parts.new.trail.truth.items ≡ length parts.old.trail.truth.items) }
{
    let watched = open_pair(clause, &parts.trail.truth);
    let number = record_clause(
        &mut parts.store,
        &mut parts.watches,
        &mut parts.index,
        clause,
        watched,
    )?;
    if watched.is_some() {
        return Ok(false);
    }
    settle(parts, clause, number)
}

/// Adds a clause, and answers whether it is false under what follows from the clauses alone.
pub fn insert(alloc: Global, parts: &mut Parts, clause: &[u32]) -> Result<bool, NoMemory>
    requires idle { IsIdle parts.old }
    ensures kept { IfOk result (λ refuted. IsKept parts.new refuted) }
    ensures store { OnOk result (parts.new.store ≡ parts.old.store ++ clause.now ∷ []) }
    ensures wider { OnOk result (AreWider clause.now (length parts.old.trail.truth.items) (length parts.new.trail.truth.items)) }
{
    fit(alloc, parts, clause)?;
    if clause.is_empty() {
        parts.store.push(clause)?;
        return Ok(true);
    }
    insert_some(parts, clause)
}

/// Unsets all but what follows from the clauses alone, after a search under these literals.
pub fn retreat(parts: &mut Parts, _assumed: &[u32])
    requires { IsReady _assumed.now parts.old }
    ensures idle { IsIdle parts.new }
    ensures store { parts.new.store ≡ parts.old.store }
    ensures size { length parts.new.trail.truth.items ≡ length parts.old.trail.truth.items }
{
    let start = parts.start;
    rewind(&mut parts.trail, &mut parts.guide, start);
}

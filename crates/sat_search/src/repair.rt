ghost use Rattle.std.specs.Prelude.{◌≡◌, ℕ, ◌+◌, ◌-◌, ◌*◌, ◌/◌, ◌<◌, ◌≤◌, Bool, true, false, length, slice_index, take, MatchOption, IfSome, IfOk, OnOk};
ghost use Rattle.std.specs.List.{Contains};
ghost use Rattle.sat_clause.specs.Literals.{complement_of};
ghost use Rattle.sat_clause.specs.Propagation.{clause_at, Conflict};
ghost use Rattle.sat_engine.specs.Trail.{IsSet, reason_at, lit_at};
ghost use Rattle.sat_engine.specs.Look.{InRange, AreInRange, AreFalse};
ghost use Rattle.sat_search.specs.Choice.{IsChoiceAt, NoChoice};
ghost use Rattle.sat_search.specs.State.{IsState};
ghost use Rattle.sat_search.specs.Repair.{IsBack, IsFound, IsSpot, IsJump};

use crate::analysis::analyze;
use crate::choice::{last_choice, last_place, next_choice};
use crate::cuts::rewind;
use crate::guide::Guide;
use kv_base::NoMemory;
use sat_engine::{Reason, Store, Trail};
use std::alloc::Global;

/// Where a conflict is analyzed: its last literal, and the last choice before it.
#[derive(Clone, Copy, Debug)]
pub struct Spot {
    pub top: usize,
    pub floor: usize,
}

/// The first place that is after the last one and not before `start`.
fn from_last(last: Option<usize>, start: usize) -> usize
    requires { IfSome last (λ t. t + 1 < 18446744073709551616) }
    ensures { MatchOption last (result ≡ start) (λ t. (start ≤ result) × (t < result) × ((f : ℕ) → t < f → start ≤ f → result ≤ f)) }
{
    match last {
        None => start,
        Some(t) => { if t + 1 > start { t + 1 } else { start } }
    }
}

/// Unsets what comes from the first choice on that stands after all of the clause's literals but the last.
fn backjump(trail: &mut Trail, guide: &mut Guide, start: usize, clause: &[u32]) -> usize
    requires some { 0 < length clause.now }
    requires range { InRange clause.now (length trail.old.truth.items) }
    requires start { start ≤ length trail.old.steps.items }
    requires low { (k : ℕ) → k + 1 < length clause.now → slice_index trail.old.place.items (slice_index clause.now k / 2) < length trail.old.steps.items }
    ensures steps { trail.new.steps.items ≡ take result trail.old.steps.items }
    ensures size { length trail.new.truth.items ≡ length trail.old.truth.items }
    ensures place { trail.new.place.items ≡ trail.old.place.items }
    ensures back { IsBack trail.old.steps.items trail.old.place.items start clause.now result }
{
    let last = last_place(&clause[..clause.len() - 1], &trail.place);
    let to = next_choice(trail, from_last(last, start));
    rewind(trail, guide, to);
    to
}

/// The place of the conflict's last literal, and of the last choice before it, where that is free.
pub fn find_spot(
    store: &Store,
    trail: &Trail,
    start: usize,
    conflict: u32,
    assumed: &[u32],
) -> Option<Spot>
    requires conflict { conflict < length store.now }
    requires range { InRange (clause_at store.now conflict) (length trail.now.truth.items) }
    requires is_false { AreFalse (clause_at store.now conflict) trail.now.truth.items }
    requires state { IsState store.now assumed.now trail.now.steps.items start }
    ensures { IsFound store.now assumed.now trail.now.steps.items trail.now.place.items start conflict result }
{
    match last_place(store.get(conflict as usize), &trail.place) {
        None => None,
        Some(top) => match last_choice(trail, start, top) {
            None => None,
            Some(floor) => match trail.steps[floor].reason {
                Reason::Free => Some(Spot { top, floor }),
                Reason::Assumed => None,
                Reason::Clause(_) => None,
            },
        },
    }
}

/// Learns a clause from a false one, and unsets what was set after it would have had effect.
pub fn learn(
    alloc: Global,
    store: &Store,
    trail: &mut Trail,
    guide: &mut Guide,
    marks: &mut [bool],
    start: usize,
    spot: Spot,
    conflict: u32,
    assumed: &[u32],
) -> Result<Vec<u32>, NoMemory>
    requires conflict { conflict < length store.now }
    requires range { AreInRange store.now (length trail.old.truth.items) }
    requires is_false { AreFalse (clause_at store.now conflict) trail.old.truth.items }
    requires state { IsState store.now assumed.now trail.old.steps.items start }
    requires spot { IsSpot store.now trail.old.steps.items trail.old.place.items start conflict spot }
    requires room { length trail.old.truth.items ≤ 2 * length marks.old }
    requires unmarked { (v : ℕ) → IsSet marks.old v → ⊥ }
    ensures size { length trail.new.truth.items ≡ length trail.old.truth.items }
    ensures clean { OnOk result ((v : ℕ) → IsSet marks.new v → ⊥) }
    ensures jump { IfOk result (λ c. IsJump store.now trail.old.steps.items trail.new.steps.items trail.new.truth.items start c.items) }
{
    let end = next_choice(trail, spot.top + 1);
    rewind(trail, guide, end);
    let clause = analyze(
        alloc, guide, store, trail, start, spot.floor, spot.top, conflict, marks,
    )?;
    backjump(trail, guide, start, &clause);
    Ok(clause)
}

ghost use Rattle.std.specs.Prelude.{ℕ, ◌≡◌, ◌*◌, ◌/◌, ◌<◌, ◌≤◌, Bool, true, length, IfOk, OnOk};
ghost use Rattle.std.specs.List.{Contains};
ghost use Rattle.sat_clause.specs.Propagation.{clause_at};
ghost use Rattle.sat_engine.specs.Look.{InRange};
ghost use Rattle.sat_engine.specs.Trail.{IsSet};
ghost use Rattle.sat_search.specs.Mark.{IsMarkedAt};
ghost use Rattle.sat_search.specs.Analysis.{AreCovered, IsSite, IsMarked, IsRedundant};

use crate::guide::Guide;
use crate::implied::Grounds;
use kv_base::NoMemory;
use sat_engine::{Reason, Store, Trail, complement};
use std::alloc::Global;

/// Whether each literal of the clause but `skip` is marked, or was set before `start`.
fn are_covered(clause: &[u32], place: &[usize], start: usize, marks: &[bool], skip: u32) -> bool
    requires range { InRange clause.now (2 * length place.now) }
    requires room { InRange clause.now (2 * length marks.now) }
    ensures { result ≡ true → AreCovered clause.now (length clause.now) place.now start marks.now skip }
{
    for lit in clause {
        let lit = *lit;
        if lit == skip {
            continue;
        }
        let var = (lit / 2) as usize;
        if !marks[var] && place[var] >= start {
            return false;
        }
    }
    true
}

/// The same of a clause of the store.
fn are_covered_in(
    store: &Store,
    number: u32,
    place: &[usize],
    start: usize,
    marks: &[bool],
    skip: u32,
) -> bool
    requires number { number < length store.now }
    requires range { InRange (clause_at store.now number) (2 * length place.now) }
    requires room { InRange (clause_at store.now number) (2 * length marks.now) }
    ensures { result ≡ true → AreCovered (clause_at store.now number) (length (clause_at store.now number)) place.now start marks.now skip }
{
    are_covered(store.get(number as usize), place, start, marks, skip)
}

/// Whether the literal at this place of the trail follows from what is marked beside it.
fn is_redundant(
    store: &Store,
    trail: &Trail,
    start: usize,
    _floor: usize,
    marks: &[bool],
    at: usize,
) -> bool
    requires site { IsSite store.now trail.now.steps.items trail.now.truth.items trail.now.place.items start _floor }
    requires room { length trail.now.truth.items ≤ 2 * length marks.now }
    requires at { at < length trail.now.steps.items }
    ensures { result ≡ true → IsRedundant store.now trail.now.steps.items trail.now.place.items start marks.now at }
{
    let step = trail.steps[at];
    match step.reason {
        Reason::Clause(n) => are_covered_in(store, n, &trail.place, start, marks, step.lit),
        _ => false,
    }
}

/// Marks and lists the literals at these places of the trail, where they stand before `floor`.
fn mark_more(
    _store: &Store,
    trail: &Trail,
    floor: usize,
    _top: usize,
    places: &[usize],
    marks: &mut [bool],
    low: &mut Vec<u32>,
) -> Result<(), NoMemory>
    requires floor { floor ≤ _top }
    requires marked { IsMarked _store.now trail.now.truth.items trail.now.place.items floor _top marks.old low.old.items }
    ensures marked { OnOk result (IsMarked _store.now trail.now.truth.items trail.now.place.items floor _top marks.new low.new.items) }
    ensures above { (i : ℕ) → floor ≤ i → i < length trail.now.steps.items → IsMarkedAt trail.now.steps.items marks.new i → IsMarkedAt trail.now.steps.items marks.old i }
{
    for at in places {
        let at = *at;
        if at >= floor || at >= trail.steps.len() {
            continue;
        }
        let lit = trail.steps[at].lit;
        if marks[(lit / 2) as usize] {
            continue;
        }
        low.push(complement(lit))?;
        marks[(lit / 2) as usize] = true;
    }
    Ok(())
}

/// Unmarks the literals at these places, from the last one on, that follow from what is marked beside them.
fn unmark_redundant(
    store: &Store,
    trail: &Trail,
    start: usize,
    floor: usize,
    _top: usize,
    places: &[usize],
    marks: &mut [bool],
    _low: &[u32],
)
    requires site { IsSite store.now trail.now.steps.items trail.now.truth.items trail.now.place.items start floor }
    requires marked { IsMarked store.now trail.now.truth.items trail.now.place.items floor _top marks.old _low.now }
    ensures marked { IsMarked store.now trail.now.truth.items trail.now.place.items floor _top marks.new _low.now }
    ensures fewer { (v : ℕ) → IsSet marks.new v → IsSet marks.old v }
{
    let mut left = places.len();
    while left > 0 {
        left -= 1;
        let at = places[left];
        if at >= trail.steps.len() {
            continue;
        }
        if is_redundant(store, trail, start, floor, marks, at) {
            marks[(trail.steps[at].lit / 2) as usize] = false;
        }
    }
}

/// The literals whose variables are marked.
fn still_marked(alloc: Global, lits: &[u32], marks: &[bool]) -> Result<Vec<u32>, NoMemory>
    requires { InRange lits.now (2 * length marks.now) }
    ensures only { IfOk result (λ kept. (l : ℕ) → Contains kept.items l → Contains lits.now l) }
    ensures all { IfOk result (λ kept. (l : ℕ) → Contains lits.now l → IsSet marks.now (l / 2) → Contains kept.items l) }
{
    let mut kept = Vec::new(alloc);
    for lit in lits {
        let lit = *lit;
        if !marks[(lit / 2) as usize] {
            continue;
        }
        kept.push(lit)?;
    }
    Ok(kept)
}

/// Leaves out the literals that follow from the others, and unmarks them.
pub fn shorten(
    alloc: Global,
    guide: &mut Guide,
    store: &Store,
    trail: &Trail,
    start: usize,
    floor: usize,
    _top: usize,
    marks: &mut [bool],
    low: &mut Vec<u32>,
) -> Result<Vec<u32>, NoMemory>
    requires site { IsSite store.now trail.now.steps.items trail.now.truth.items trail.now.place.items start floor }
    requires floor { floor ≤ _top }
    requires marked { IsMarked store.now trail.now.truth.items trail.now.place.items floor _top marks.old low.old.items }
    ensures marked { IfOk result (λ kept. IsMarked store.now trail.now.truth.items trail.now.place.items floor _top marks.new kept.items) }
    ensures above { (i : ℕ) → floor ≤ i → i < length trail.now.steps.items → IsMarkedAt trail.now.steps.items marks.new i → IsMarkedAt trail.now.steps.items marks.old i }
{
    let grounds = Grounds {
        store,
        trail,
        start,
        marks,
    };
    let places = guide.implied(&grounds, low)?;
    mark_more(store, trail, floor, _top, places, marks, low)?;
    unmark_redundant(store, trail, start, floor, _top, places, marks, low);
    let kept = still_marked(alloc, low, marks)?;
    Ok(kept)
}

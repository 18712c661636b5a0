ghost use Rattle.std.specs.Prelude.{◌≡◌, ◌≢◌, ℕ, ◌+◌, ◌*◌, ◌/◌, ◌%◌, ◌<◌, ◌≤◌, ◌⊎◌, Bool, true, false, length, slice_index, IfOk, OnOk};
ghost use Rattle.std.specs.List.{Contains};
ghost use Rattle.sat_clause.specs.Literals.{complement_of};
ghost use Rattle.sat_clause.specs.Propagation.{clause_at};
ghost use Rattle.sat_engine.specs.Trail.{IsSet, lit_at};
ghost use Rattle.sat_engine.specs.Look.{AreFalse};
ghost use Rattle.sat_search.specs.Mark.{IsMarkedAt, IsNext};
ghost use Rattle.sat_search.specs.Analysis.{IsSite, IsMarked, IsWitness, IsLearnt};

use crate::guide::Guide;
use crate::mark::{mark_all, next_marked, unmark};
use crate::shorten::shorten;
use kv_base::NoMemory;
use sat_engine::{Reason, Store, Trail, complement};
use std::alloc::Global;

/// Puts the literals of its reason in the place of the literal at `at`, and goes to the next marked place.
fn resolve(
    guide: &mut Guide,
    store: &Store,
    trail: &Trail,
    start: usize,
    floor: usize,
    at: usize,
    witness: usize,
    marks: &mut [bool],
    low: &mut Vec<u32>,
) -> Result<usize, NoMemory>
    requires site { IsSite store.now trail.now.steps.items trail.now.truth.items trail.now.place.items start floor }
    requires marked { IsMarked store.now trail.now.truth.items trail.now.place.items floor (at + 1) marks.old low.old.items }
    requires at { at < length trail.now.steps.items }
    requires witness { IsWitness trail.now.steps.items marks.old floor at (Some witness) }
    ensures { IfOk result (λ to. IsMarked store.now trail.now.truth.items trail.now.place.items floor (to + 1) marks.new low.new.items
        × (witness ≤ to) × (to < at) × IsMarkedAt trail.now.steps.items marks.new to × IsMarkedAt trail.now.steps.items marks.new witness) }
{
    let step = trail.steps[at];
    marks[(step.lit / 2) as usize] = false;
    match step.reason {
        Reason::Clause(n) => {
            guide.used(n);
            mark_all(
                guide,
                store.get(n as usize),
                &trail.place,
                start,
                floor,
                step.lit,
                marks,
                low,
            )?;
        }
        _ => unreachable!(),
    }
    match next_marked(trail, marks, witness, at) {
        Some(to) => Ok(to),
        None => unreachable!(),
    }
}

/// A marked place from `floor` on and before `at`, if there is one.
fn next_witness(
    trail: &Trail,
    marks: &[bool],
    floor: usize,
    at: usize,
    witness: usize,
) -> Option<usize>
    requires at { at ≤ length trail.now.steps.items }
    requires room { length trail.now.truth.items ≤ 2 * length marks.now }
    requires floor { floor ≤ witness }
    requires witness { witness ≤ at }
    requires marked { IsMarkedAt trail.now.steps.items marks.now witness }
    ensures { IsWitness trail.now.steps.items marks.now floor at result }
{
    if at == witness {
        next_marked(trail, marks, floor, at)
    } else {
        Some(witness)
    }
}

/// Learns a clause from a false one whose last literal to be set false was so at `top`.
pub fn analyze(
    alloc: Global,
    guide: &mut Guide,
    store: &Store,
    trail: &Trail,
    start: usize,
    floor: usize,
    top: usize,
    conflict: u32,
    marks: &mut [bool],
) -> Result<Vec<u32>, NoMemory>
    requires site { IsSite store.now trail.now.steps.items trail.now.truth.items trail.now.place.items start floor }
    requires conflict { conflict < length store.now }
    requires is_false { AreFalse (clause_at store.now conflict) trail.now.truth.items }
    requires top { top < length trail.now.steps.items }
    requires start { start ≤ floor }
    requires floor { floor ≤ top }
    requires last { Contains (clause_at store.now conflict) (complement_of (lit_at trail.now.steps.items top)) }
    requires until { (m : ℕ) → Contains (clause_at store.now conflict) m → slice_index trail.now.place.items (m / 2) ≤ top }
    requires unmarked { (v : ℕ) → IsSet marks.old v → ⊥ }
    requires room { length trail.now.truth.items ≤ 2 * length marks.old }
    ensures clean { OnOk result ((v : ℕ) → IsSet marks.new v → ⊥) }
    ensures learnt { IfOk result (λ c. IsLearnt store.now trail.now.truth.items trail.now.place.items floor c.items) }
{
    let mut low = Vec::new(alloc);
    let skip = trail.steps[top].lit;
    guide.used(conflict);
    mark_all(
        guide,
        store.get(conflict as usize),
        &trail.place,
        start,
        floor,
        skip,
        marks,
        &mut low,
    )?;
    let mut at = top;
    let mut witness = next_marked(trail, marks, floor, top);
    while let Some(w) = witness {
        at = resolve(guide, store, trail, start, floor, at, w, marks, &mut low)?;
        witness = next_witness(trail, marks, floor, at, w);
    }
    let mut clause = shorten(
        alloc,
        guide,
        store,
        trail,
        start,
        floor,
        at + 1,
        marks,
        &mut low,
    )?;
    clause.push(complement(trail.steps[at].lit))?;
    unmark(&clause, marks);
    Ok(clause)
}

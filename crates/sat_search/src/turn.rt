ghost use Rattle.std.specs.Prelude.{◌≡◌, ℕ, ◌+◌, ◌*◌, ◌/◌, ◌%◌, ◌<◌, ◌≤◌, ◌⊎◌, Bool, true, false, length, slice_index, IfOk, OnOk, MatchOption, MatchBool};
ghost use Rattle.std.specs.List.{Contains};
ghost use Rattle.sat_clause.specs.Literals.{complement_of};
ghost use Rattle.sat_clause.specs.Propagation.{clause_at};
ghost use Rattle.sat_engine.specs.declared.trail.Reason.TheVariants.{Free};
ghost use Rattle.sat_engine.specs.Trail.{IsSet, reason_at};
ghost use Rattle.sat_engine.specs.Look.{InRange, AreInRange, AreFalse};
ghost use Rattle.sat_search.specs.State.{IsReady, IsState};
ghost use Rattle.sat_search.specs.Turn.{HasTrue, TurnSays};

use crate::choice::next_choice;
use crate::cuts::rewind;
use crate::guide::Guide;
use crate::once::{Once, resolve_conflict};
use crate::parts::Parts;
use kv_base::NoMemory;
use sat_engine::{Reason, Store, Trail, complement, propagate};
use std::alloc::Global;

/// What a turn of the search led to.
#[derive(Clone, Copy, Debug)]
pub enum Turn {
    Met,
    Refuted,
    Learnt,
    Moved,
}

/// Whether a literal of the clause is true.
fn has_true(clause: &[u32], truth: &[bool]) -> bool
    requires { InRange clause.now (length truth.now) }
    ensures { MatchBool result (HasTrue clause.now truth.now) ((m : ℕ) → Contains clause.now m → IsSet truth.now m → ⊥) }
{
    for m in clause {
        if truth[*m as usize] {
            return true;
        }
    }
    false
}

/// The first clause with no true literal.
fn first_unmet(store: &Store, truth: &[bool]) -> Option<u32>
    requires few { length store.now < 4294967296 }
    requires range { AreInRange store.now (length truth.now) }
    ensures { MatchOption result
        ((i : ℕ) → i < length store.now → HasTrue (clause_at store.now i) truth.now)
        (λ i. (i < length store.now) × ((m : ℕ) → Contains (clause_at store.now i) m → IsSet truth.now m → ⊥)) }
{
    let many = store.len();
    let mut i: u32 = 0;
    while (i as usize) < many {
        if !has_true(store.get(i as usize), truth) {
            return Some(i);
        }
        i += 1;
    }
    None
}

/// A literal that is neither true nor false.
fn first_open(truth: &[bool]) -> Option<u32>
    requires small { length truth.now < 4294967296 }
    requires even { length truth.now % 2 ≡ 0 }
    ensures { MatchOption result
        ((l : ℕ) → l < length truth.now → IsSet truth.now l ⊎ IsSet truth.now (complement_of l))
        (λ l. (l < length truth.now) × (IsSet truth.now l → ⊥) × (IsSet truth.now (complement_of l) → ⊥)) }
{
    let mut l: u32 = 0;
    while (l as usize) < truth.len() {
        if !truth[l as usize] && !truth[complement(l) as usize] {
            return Some(l);
        }
        l += 1;
    }
    None
}

/// Whether a literal is neither true nor false.
fn is_open(truth: &[bool], lit: u32) -> bool
    requires even { length truth.now % 2 ≡ 0 }
    ensures { result ≡ true → (lit < length truth.now) × (IsSet truth.now lit → ⊥) × (IsSet truth.now (complement_of lit) → ⊥) }
{
    (lit as usize) < truth.len() && !truth[lit as usize] && !truth[complement(lit) as usize]
}

/// An open literal, the guide's if that is one.
fn choose(trail: &Trail, guide: &mut Guide) -> Option<u32>
    requires small { length trail.now.truth.items < 4294967296 }
    ensures { MatchOption result
        ((l : ℕ) → l < length trail.now.truth.items → IsSet trail.now.truth.items l ⊎ IsSet trail.now.truth.items (complement_of l))
        (λ l. (l < length trail.now.truth.items) × (IsSet trail.now.truth.items l → ⊥) × (IsSet trail.now.truth.items (complement_of l) → ⊥)) }
{
    match guide.choose(&trail.truth) {
        Some(lit) => {
            if is_open(&trail.truth, lit) {
                return Some(lit);
            }
        }
        None => {}
    }
    first_open(&trail.truth)
}

/// The place of the first assumption from a place on that is not true.
fn unset_from(assumed: &[u32], truth: &[bool], from: usize) -> Option<usize>
    requires { InRange assumed.now (length truth.now) }
    ensures { MatchOption result
        ((i : ℕ) → from ≤ i → i < length assumed.now → IsSet truth.now (slice_index assumed.now i))
        (λ i. (i < length assumed.now) × (IsSet truth.now (slice_index assumed.now i) → ⊥)) }
{
    for at in from..assumed.len() {
        if !truth[assumed[at] as usize] {
            return Some(at);
        }
    }
    None
}

/// Whether the trail has a free choice at a place: then all assumptions are true.
fn is_free_at(trail: &Trail, place: Option<usize>) -> bool
    ensures { result ≡ true → (j : ℕ) × (j < length trail.now.steps.items) × (reason_at trail.now.steps.items j ≡ Free) }
{
    match place {
        Some(at) => at < trail.steps.len() && matches!(trail.steps[at].reason, Reason::Free),
        None => false,
    }
}

/// An assumption that is not true. There is none where the trail has a free choice, as the guide may say; else it says
/// from where on to look, and only where that finds none is each assumption looked at.
fn next_assumption(
    trail: &Trail,
    guide: &mut Guide,
    assumed: &[u32],
    _store: &Store,
    _start: usize,
) -> Option<u32>
    requires range { InRange assumed.now (length trail.now.truth.items) }
    requires state { IsState _store.now assumed.now trail.now.steps.items _start }
    ensures { MatchOption result
        ((a : ℕ) → Contains assumed.now a → IsSet trail.now.truth.items a)
        (λ a. Contains assumed.now a × (IsSet trail.now.truth.items a → ⊥)) }
{
    if is_free_at(trail, guide.first_free()) {
        return None;
    }
    if let Some(at) = unset_from(assumed, &trail.truth, guide.reached()) {
        guide.reach(at);
        return Some(assumed[at]);
    }
    match unset_from(assumed, &trail.truth, 0) {
        Some(at) => {
            guide.reach(at);
            Some(assumed[at])
        }
        None => None,
    }
}

/// Sets the next literal, by an assumption or by choice; where all are set, sees whether each clause is met.
fn decide(alloc: Global, parts: &mut Parts, assumed: &[u32]) -> Result<Turn, NoMemory>
    requires ready { IsReady assumed.now parts.old }
    requires assumed { InRange assumed.now (length parts.old.trail.truth.items) }
    ensures { IfOk result (λ r. TurnSays assumed.now parts.old parts.new r) }
{
    match next_assumption(
        &parts.trail,
        &mut parts.guide,
        assumed,
        &parts.store,
        parts.start,
    ) {
        Some(a) => {
            if parts.trail.truth[complement(a) as usize] {
                return Ok(Turn::Refuted);
            }
            let at = parts.trail.steps.len();
            parts.guide.assumed(at)?;
            parts.trail.push(a, Reason::Assumed)?;
            return Ok(Turn::Moved);
        }
        None => {}
    }
    match choose(&parts.trail, &mut parts.guide) {
        Some(lit) => {
            let at = parts.trail.steps.len();
            parts.guide.chosen(at)?;
            parts.trail.push(lit, Reason::Free)?;
            return Ok(Turn::Moved);
        }
        None => {}
    }
    match first_unmet(&parts.store, &parts.trail.truth) {
        None => Ok(Turn::Met),
        Some(conflict) => handle_conflict(alloc, parts, assumed, conflict),
    }
}

/// Where a restart cuts the trail: at its first free choice, so that the assumptions stay set.
fn restart_from(trail: &Trail, guide: &Guide, start: usize) -> usize
    requires { start ≤ length trail.now.steps.items }
    ensures above { start ≤ result }
    ensures within { result ≤ length trail.now.steps.items }
{
    let end = trail.steps.len();
    let free = guide.first_free().unwrap_or(end);
    free.min(end).max(start)
}

/// Moves `start` up to the first choice, and cuts the trail where a restart is due.
fn restart(parts: &mut Parts, assumed: &[u32], is_due: bool)
    requires ready { IsReady assumed.now parts.old }
    ensures ready { IsReady assumed.now parts.new }
    ensures store { parts.new.store ≡ parts.old.store }
    ensures size { length parts.new.trail.truth.items ≡ length parts.old.trail.truth.items }
{
    let first = next_choice(&parts.trail, parts.start);
    parts.start = first;
    if is_due {
        let to = restart_from(&parts.trail, &parts.guide, first);
        rewind(&mut parts.trail, &mut parts.guide, to);
    }
}

/// Forgets some learnt clauses, where that is due.
fn reduce(parts: &mut Parts, _assumed: &[u32])
    requires ready { IsReady _assumed.now parts.old }
    ensures ready { IsReady _assumed.now parts.new }
    ensures store { parts.new.store ≡ parts.old.store }
    ensures trail { parts.new.trail ≡ parts.old.trail }
{
    if !parts.guide.is_due() {
        return;
    }
    parts.guide.forget(&mut parts.watches);
}

/// Resolves a conflict, and then restarts and forgets where that is due.
fn handle_conflict(
    alloc: Global,
    parts: &mut Parts,
    assumed: &[u32],
    conflict: u32,
) -> Result<Turn, NoMemory>
    requires ready { IsReady assumed.now parts.old }
    requires conflict { conflict < length parts.old.store }
    requires is_false { AreFalse (clause_at parts.old.store conflict) parts.old.trail.truth.items }
    ensures { IfOk result (λ r. TurnSays assumed.now parts.old parts.new r) }
{
    match resolve_conflict(alloc, parts, assumed, conflict)? {
        Once::Refuted => Ok(Turn::Refuted),
        Once::Learnt => {
            let is_due = parts.guide.learnt();
            restart(parts, assumed, is_due);
            reduce(parts, assumed);
            Ok(Turn::Learnt)
        }
        Once::Flipped => Ok(Turn::Moved),
        Once::Again(_) => unreachable!(),
    }
}

/// Propagates, and then repairs the trail or goes on.
pub fn turn_once(
    alloc: Global,
    parts: &mut Parts,
    assumed: &[u32],
    from: usize,
) -> Result<Turn, NoMemory>
    requires ready { IsReady assumed.now parts.old }
    requires assumed { InRange assumed.now (length parts.old.trail.truth.items) }
    ensures { IfOk result (λ r. TurnSays assumed.now parts.old parts.new r) }
{
    match propagate(
        alloc,
        &parts.store,
        &mut parts.trail,
        &mut parts.watches,
        from,
    ) {
        Err(e) => Err(e),
        Ok(Some(conflict)) => handle_conflict(alloc, parts, assumed, conflict),
        Ok(None) => decide(alloc, parts, assumed),
    }
}

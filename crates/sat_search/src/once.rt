ghost use Rattle.std.specs.Prelude.{◌≡◌, ℕ, ◌+◌, ◌<◌, ◌≤◌, length, IfOk};
ghost use Rattle.sat_clause.specs.Propagation.{clause_at};
ghost use Rattle.sat_engine.specs.Look.{AreFalse};
ghost use Rattle.sat_search.specs.State.{IsReady};
ghost use Rattle.sat_search.specs.Once.{OnceSays, IsDone};

use crate::choice::{latest, pair};
use crate::guide::Guide;
use crate::parts::Parts;
use crate::repair::{find_spot, learn};
use kv_base::NoMemory;
use sat_engine::{Reason, Seen, Store, Watches, look_at};
use sat_index::{earlier, record_clause};
use std::alloc::Global;

/// What one look at a false clause led to.
#[derive(Clone, Copy, Debug)]
pub enum Once {
    /// the assumptions are refuted
    Refuted,
    /// a clause was learnt
    Learnt,
    /// an earlier clause has set a literal in place of a choice
    Flipped,
    /// a further clause is false
    Again(u32),
}

/// Has a clause that was forgotten watch a literal and the last of the others to be set.
fn recall(
    store: &Store,
    place: &[usize],
    watches: &mut Watches,
    guide: &mut Guide,
    number: u32,
    lit: u32,
) -> Result<(), NoMemory>
    requires { number < length store.now }
{
    if watches.is_watched(number) {
        return Ok(());
    }
    let clause = store.get(number as usize);
    let Some(other) = latest(clause, lit, place) else {
        return Ok(());
    };
    watches.add(store, number, lit, other)?;
    guide.recall(number)
}

/// Looks at a false clause once.
pub fn resolve_once(
    alloc: Global,
    parts: &mut Parts,
    assumed: &[u32],
    conflict: u32,
) -> Result<Once, NoMemory>
    requires ready { IsReady assumed.now parts.old }
    requires conflict { conflict < length parts.old.store }
    requires is_false { AreFalse (clause_at parts.old.store conflict) parts.old.trail.truth.items }
    ensures { IfOk result (λ r. OnceSays assumed.now parts.old parts.new r) }
{
    let Some(spot) = find_spot(&parts.store, &parts.trail, parts.start, conflict, assumed) else {
        return Ok(Once::Refuted);
    };
    let clause = learn(
        alloc,
        &parts.store,
        &mut parts.trail,
        &mut parts.guide,
        &mut parts.marks,
        parts.start,
        spot,
        conflict,
        assumed,
    )?;
    let found = earlier(&parts.store, &parts.index, &clause, &mut parts.flags);
    let lit = clause[clause.len() - 1];
    match found {
        None => {
            let watched = pair(&clause, &parts.trail.place);
            let number = record_clause(
                &mut parts.store,
                &mut parts.watches,
                &mut parts.index,
                &clause,
                watched,
            )?;
            let levels = parts.guide.levels_of(&clause, &parts.trail)?;
            parts.guide.rate(number, levels)?;
            parts.trail.push(lit, Reason::Clause(number))?;
            Ok(Once::Learnt)
        }
        Some(number) => match look_at(parts.store.get(number as usize), &parts.trail.truth, lit) {
            Seen::Unit => {
                recall(
                    &parts.store,
                    &parts.trail.place,
                    &mut parts.watches,
                    &mut parts.guide,
                    number,
                    lit,
                )?;
                parts.trail.push(lit, Reason::Clause(number))?;
                Ok(Once::Flipped)
            }
            Seen::False => Ok(Once::Again(number)),
            Seen::Open(_) => unreachable!(),
        },
    }
}

/// Repairs the trail where a clause is false.
pub fn resolve_conflict(
    alloc: Global,
    parts: &mut Parts,
    assumed: &[u32],
    conflict: u32,
) -> Result<Once, NoMemory>
    requires ready { IsReady assumed.now parts.old }
    requires conflict { conflict < length parts.old.store }
    requires is_false { AreFalse (clause_at parts.old.store conflict) parts.old.trail.truth.items }
    ensures says { IfOk result (λ r. OnceSays assumed.now parts.old parts.new r) }
    ensures done { IfOk result IsDone }
{
    let mut conflict = conflict;
    'again: loop {
        match resolve_once(alloc, parts, assumed, conflict)? {
            Once::Refuted => return Ok(Once::Refuted),
            Once::Learnt => return Ok(Once::Learnt),
            Once::Flipped => return Ok(Once::Flipped),
            Once::Again(number) => conflict = number,
        }
    }
}

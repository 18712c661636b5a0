ghost use Rattle.std.specs.Prelude.{◌≡◌, ℕ, ◌+◌, ◌*◌, ◌/◌, ◌%◌, ◌<◌, ◌≤◌, Bool, true, false, length, IfOk, IfSome};
ghost use Rattle.std.specs.List.{Contains};
ghost use Rattle.sat_clause.specs.Literals.{complement_of};
ghost use Rattle.sat_clause.specs.Propagation.{clause_at};
ghost use Rattle.sat_engine.specs.Look.{AreInRange, AreFalse, AreFalseBut};
ghost use Rattle.sat_engine.specs.Grow.{Grows};

use crate::copies::Look;
use crate::literal::complement;
use crate::look::{Seen, is_true, look_at};
use crate::store::Store;
use crate::trail::{Reason, Trail};
use crate::watch::{Watch, Watches};
use kv_base::NoMemory;
use std::alloc::Global;

/// Sets a literal true whose clause is false otherwise. True where that fails.
pub fn imply(store: &Store, trail: &mut Trail, clause: u32, lit: u32) -> Result<bool, NoMemory>
    requires clause { clause < length store.now }
    requires literal { Contains (clause_at store.now clause) lit }
    requires others { AreFalseBut (clause_at store.now clause) trail.old.truth.items lit }
    requires range { lit < length trail.old.truth.items }
    ensures grows { Grows store.now trail.old.steps.items trail.new.steps.items }
    ensures size { length trail.new.truth.items ≡ length trail.old.truth.items }
    ensures conflict { result ≡ Ok true → AreFalse (clause_at store.now clause) trail.new.truth.items }
{
    if trail.truth[complement(lit) as usize] {
        return Ok(true);
    }
    if trail.truth[lit as usize] {
        return Ok(false);
    }
    trail.push(lit, Reason::Clause(clause))?;
    Ok(false)
}

/// Sets a literal true where all others are false of the clause that begins at a place. Gives the clause where all are.
fn infer(store: &Store, trail: &mut Trail, home: u32, lit: u32) -> Result<Option<u32>, NoMemory>
    requires range { AreInRange store.now (length trail.old.truth.items) }
    ensures grows { Grows store.now trail.old.steps.items trail.new.steps.items }
    ensures size { length trail.new.truth.items ≡ length trail.old.truth.items }
    ensures conflict { IfOk result (λ r. IfSome r (λ i. (i < length store.now) × AreFalse (clause_at store.now i) trail.new.truth.items)) }
{
    let Some(clause) = store.at(home) else {
        return Ok(None);
    };
    match look_at(clause.lits, &trail.truth, lit) {
        Seen::Open(_) => Ok(None),
        Seen::False => Ok(Some(clause.number)),
        Seen::Unit => {
            let fails = imply(store, trail, clause.number, lit)?;
            Ok(if fails { Some(clause.number) } else { None })
        }
    }
}

/// Propagates the false literal `lit` through the clauses that watch it.
fn visit(
    store: &Store,
    trail: &mut Trail,
    watches: &mut Watches,
    list: &mut Vec<Watch>,
    lit: u32,
) -> Result<Option<u32>, NoMemory>
    requires range { AreInRange store.now (length trail.old.truth.items) }
    ensures grows { Grows store.now trail.old.steps.items trail.new.steps.items }
    ensures size { length trail.new.truth.items ≡ length trail.old.truth.items }
    ensures conflict { IfOk result (λ r. IfSome r (λ i. (i < length store.now) × AreFalse (clause_at store.now i) trail.new.truth.items)) }
{
    let mut i = 0;
    while i < list.len() {
        let watch = list[i];
        if is_true(&trail.truth, watch.blocker) {
            i += 1;
            continue;
        }
        match watches.look(watch, lit, &trail.truth)? {
            Look::Gone | Look::Moved { .. } => {
                let _left = list.swap_remove(i);
            }
            Look::True(other) => {
                list[i] = Watch {
                    place: watch.place,
                    blocker: other,
                };
                i += 1;
            }
            Look::Left { home, other } => {
                let found = infer(store, trail, home, other)?;
                if found.is_some() {
                    return Ok(found);
                }
                i += 1;
            }
        }
    }
    Ok(None)
}

/// Propagates the literals of the trail from `from` on, and gives a false clause where one was found.
pub fn propagate(
    alloc: Global,
    store: &Store,
    trail: &mut Trail,
    watches: &mut Watches,
    from: usize,
) -> Result<Option<u32>, NoMemory>
    requires range { AreInRange store.now (length trail.old.truth.items) }
    ensures grows { Grows store.now trail.old.steps.items trail.new.steps.items }
    ensures size { length trail.new.truth.items ≡ length trail.old.truth.items }
    ensures conflict { IfOk result (λ r. IfSome r (λ i. (i < length store.now) × AreFalse (clause_at store.now i) trail.new.truth.items)) }
{
    let most = trail.place.len();
    for head in from..most {
        if head >= trail.steps.len() {
            break;
        }
        let lit = complement(trail.steps[head].lit);
        let mut list = watches.take(alloc, lit);
        let found = visit(store, trail, watches, &mut list, lit)?;
        watches.put_back(lit, list);
        if found.is_some() {
            return Ok(found);
        }
    }
    Ok(None)
}

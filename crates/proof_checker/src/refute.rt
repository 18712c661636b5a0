ghost use Rattle.std.specs.Prelude.{◌≡◌, ◌↔◌, ℕ, ◌*◌, ◌<◌, ◌≤◌, Bool, true, false, List, [], length, IsTrue, IfOk, OnOk};
ghost use Rattle.sat_clause.specs.Propagation.{Refuted};
ghost use Rattle.sat_engine.specs.Look.{InRange, AreInRange};
ghost use Rattle.proof_checker.specs.Base.{IsBase, AssumeSays};

use crate::scan::close;
use crate::tiers::Tiers;
use kv_base::NoMemory;
use sat_engine::{Reason, Store, Trail, complement};
use std::alloc::Global;

/// Sets the asked literals true: answers true where the complement of one of them is true by then.
fn assume(store: &Store, trail: &mut Trail, asked: &[u32]) -> Result<bool, NoMemory>
    requires range { InRange asked.now (length trail.old.truth.items) }
    requires base { IsBase store.now [] trail.old.steps.items }
    ensures { IfOk result (λ b. AssumeSays store.now asked.now trail.old.steps.items trail.new.steps.items trail.new.truth.items b × (length trail.new.truth.items ≡ length trail.old.truth.items)) }
{
    for lit in asked {
        let lit = *lit;
        if trail.truth[complement(lit) as usize] {
            return Ok(true);
        }
        if trail.truth[lit as usize] {
            continue;
        }
        trail.push(lit, Reason::Assumed)?;
    }
    Ok(false)
}

/// Whether propagating the asked literals reaches a false clause, or two of them are complementary. The trail is then
/// as it was.
pub fn refute(
    alloc: Global,
    store: &Store,
    trail: &mut Trail,
    tiers: &mut Tiers,
    asked: &[u32],
) -> Result<bool, NoMemory>
    requires range { AreInRange store.now (length trail.old.truth.items) }
    requires few { length store.now < 4294967296 }
    requires asked { InRange asked.now (length trail.old.truth.items) }
    requires base { IsBase store.now [] trail.old.steps.items }
    ensures exact { IfOk result (λ b. IsTrue b ↔ Refuted store.now asked.now) }
    ensures kept { OnOk result (trail.new.steps.items ≡ trail.old.steps.items) }
    ensures size { OnOk result (length trail.new.truth.items ≡ length trail.old.truth.items) }
{
    let base = trail.steps.len();
    let clashes = assume(store, trail, asked)?;
    if clashes {
        trail.cut(base);
        return Ok(true);
    }
    let fails = close(alloc, store, trail, tiers, base)?;
    trail.cut(base);
    Ok(fails)
}

ghost use Rattle.std.specs.Prelude.{◌≡◌, ◌≢◌, ℕ, ◌+◌, ◌*◌, ◌%◌, ◌<◌, ◌≤◌, ◌⊎◌, Bool, true, false, length, IfOk, OnOk};
ghost use Rattle.std.specs.List.{Contains};
ghost use Rattle.sat_clause.specs.Literals.{complement_of};
ghost use Rattle.sat_clause.specs.Propagation.{clause_at};
ghost use Rattle.sat_engine.specs.Trail.{IsSet};
ghost use Rattle.sat_engine.specs.Look.{InRange, AreInRange, AreFalse, AreFalseBut};
ghost use Rattle.sat_engine.specs.Grow.{Grows};
ghost use Rattle.proof_checker.specs.Scan.{ClassSays, ScanSays, Closes};

use crate::tiers::Tiers;
use kv_base::NoMemory;
use sat_engine::{Reason, Store, Trail, complement};
use std::alloc::Global;

/// What a clause is under the literals set true.
#[derive(Clone, Copy, Debug)]
pub enum Class {
    /// it has a true literal, or two that are open
    Settled,
    /// all but this literal are false, and this is open
    Unit(u32),
    /// all are false
    False,
}

/// The first clause that is not settled.
#[derive(Clone, Copy, Debug)]
pub enum Scan {
    Closed,
    Unit(u32, u32),
    False(u32),
}

/// What the clause is.
pub fn classify(clause: &[u32], truth: &[bool]) -> Class
    requires range { InRange clause.now (length truth.now) }
    requires even { length truth.now % 2 ≡ 0 }
    ensures { ClassSays clause.now truth.now result }
{
    let mut held: Option<u32> = None;
    for m in clause {
        let m = *m;
        if truth[m as usize] {
            return Class::Settled;
        }
        if truth[complement(m) as usize] {
            continue;
        }
        match held {
            None => held = Some(m),
            Some(other) => {
                if other != m {
                    return Class::Settled;
                }
            }
        }
    }
    match held {
        None => Class::False,
        Some(m) => Class::Unit(m),
    }
}

/// The first clause that is false, or has one literal left that isn't.
fn scan_all(store: &Store, truth: &[bool]) -> Scan
    requires range { AreInRange store.now (length truth.now) }
    requires even { length truth.now % 2 ≡ 0 }
    requires few { length store.now < 4294967296 }
    ensures { ScanSays store.now truth.now result }
{
    let many = store.len();
    let mut i: u32 = 0;
    while (i as usize) < many {
        match classify(store.get(i as usize), truth) {
            Class::Settled => {}
            Class::Unit(m) => return Scan::Unit(i, m),
            Class::False => return Scan::False(i),
        }
        i += 1;
    }
    Scan::Closed
}

/// Propagates to the end: true where a clause is false then, and false where each clause is settled.
pub fn close(
    alloc: Global,
    store: &Store,
    trail: &mut Trail,
    tiers: &mut Tiers,
    from: usize,
) -> Result<bool, NoMemory>
    requires range { AreInRange store.now (length trail.old.truth.items) }
    requires few { length store.now < 4294967296 }
    ensures grows { OnOk result (Grows store.now trail.old.steps.items trail.new.steps.items) }
    ensures size { length trail.new.truth.items ≡ length trail.old.truth.items }
    ensures closes { IfOk result (Closes store.now trail.new.truth.items) }
{
    let mut from = from;
    'rounds: loop {
        match tiers.propagate(alloc, store, trail, from)? {
            Some(_) => return Ok(true),
            None => {}
        }
        match scan_all(store, &trail.truth) {
            Scan::Closed => return Ok(false),
            Scan::False(_) => return Ok(true),
            Scan::Unit(i, m) => {
                from = trail.steps.len();
                trail.push(m, Reason::Clause(i))?;
            }
        }
    }
}

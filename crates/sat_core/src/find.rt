ghost use Rattle.std.specs.Prelude.{◌≡◌, ◌≢◌, Bool, true, false, ℕ, ◌+◌, ◌-◌, ◌<◌, ◌≤◌, length, IfOk, OnOk};
ghost use Rattle.sat_engine.specs.Look.{InRange};
ghost use Rattle.sat_search.specs.State.{IsReady};
ghost use Rattle.sat_core.specs.Finding.{FoundSays, is_stopped};
ghost use Rattle.sat_core.specs.Polling.{StaysReady, WasAsked};

use crate::poll::Poll;
use kv_base::NoMemory;
use sat_search::{Parts, Turn, turn_once};
use std::alloc::Global;

/// What a search found.
#[derive(Clone, Copy, Debug)]
pub enum Found {
    /// all clauses are met where it stands
    Sat,
    /// the assumptions are refuted
    Unsat,
    /// the budget is spent
    Spent,
    /// the poll said yes
    Stopped,
}

/// One clause more was learnt, which is counted where there is a budget.
fn counted(learnt: u32, budget: u32) -> u32
    requires { 0 < budget → learnt < budget }
    ensures none { budget ≡ 0 → result ≡ 0 }
    ensures one { 0 < budget → result ≡ learnt + 1 }
{
    if budget == 0 { 0 } else { learnt + 1 }
}

/// Whether as many clauses were learnt as the budget lets be.
fn is_spent(learnt: u32, budget: u32) -> bool
    ensures spent { result ≡ true → (0 < budget) × (learnt ≡ budget) }
    ensures not_spent { result ≡ false → 0 < budget → learnt ≢ budget }
{
    budget > 0 && learnt == budget
}

/// Searches for an assignment that meets all clauses and assumptions. The poll is asked once for each clause learnt.
pub fn find<P: Poll>(
    alloc: Global,
    parts: &mut Parts,
    assumed: &[u32],
    budget: u32,
    poll: &mut P,
) -> Result<Found, NoMemory>
    requires ready { IsReady assumed.now parts.old }
    requires assumed { InRange assumed.now (length parts.old.trail.truth.items) }
    requires poll { P.ready poll.old }
    ensures says { IfOk result (λ found. FoundSays assumed.now parts.old parts.new budget found) }
    ensures poll { StaysReady P.ready P.held poll.old poll.new }
    ensures asked { IfOk result (λ found. WasAsked P.asks P.yeses poll.old poll.new (length parts.new.store - length parts.old.store) (is_stopped found)) }
{
    let mut learnt = 0;
    let mut from = 0;
    'turns: loop {
        match turn_once(alloc, parts, assumed, from)? {
            Turn::Met => return Ok(Found::Sat),
            Turn::Refuted => return Ok(Found::Unsat),
            Turn::Moved => {
                from = parts.trail.steps.len().saturating_sub(1);
                continue;
            }
            Turn::Learnt => {
                if poll.stop() {
                    return Ok(Found::Stopped);
                }
                learnt = counted(learnt, budget);
                if is_spent(learnt, budget) {
                    return Ok(Found::Spent);
                }
                from = parts.trail.steps.len().saturating_sub(1);
                continue;
            }
        }
    }
}

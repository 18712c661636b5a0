ghost use Rattle.std.specs.Prelude.{◌≡◌, ℕ, ◌+◌, ◌-◌, ◌*◌, ◌/◌, ◌<◌, ◌≤◌, Bool, true, false, length, slice_index, take, MatchOption};
ghost use Rattle.std.specs.List.{Contains};
ghost use Rattle.sat_engine.specs.Trail.{reason_at};
ghost use Rattle.sat_engine.specs.Look.{InRange};
ghost use Rattle.sat_search.specs.State.{is_choice};
ghost use Rattle.sat_search.specs.Choice.{IsLastPlace, IsChoiceAt, NoChoice};

use sat_engine::{Reason, Trail};

/// Whether a literal was set by choice or by assumption.
fn chosen(reason: Reason) -> bool
    ensures { result ≡ is_choice reason }
{
    match reason {
        Reason::Free => true,
        Reason::Assumed => true,
        Reason::Clause(_) => false,
    }
}

/// The greatest place of the clause's variables.
pub fn last_place(clause: &[u32], place: &[usize]) -> Option<usize>
    requires { InRange clause.now (2 * length place.now) }
    ensures { IsLastPlace clause.now (length clause.now) place.now result }
{
    let mut last = None;
    for m in clause {
        let here = place[(*m / 2) as usize];
        last = later(last, here);
    }
    last
}

/// The later of two places.
fn later(last: Option<usize>, here: usize) -> Option<usize>
    ensures { MatchOption last (result ≡ Some here) (λ t. (t ≤ here → result ≡ Some here) × (here < t → result ≡ last)) }
{
    match last {
        None => Some(here),
        Some(t) => { if here < t { Some(t) } else { Some(here) } }
    }
}

/// The last choice from `start` on, up to `top`.
pub fn last_choice(trail: &Trail, start: usize, top: usize) -> Option<usize>
    requires { top < length trail.now.steps.items }
    ensures { MatchOption result (NoChoice trail.now.steps.items start (top + 1))
        (λ f. (start ≤ f) × (f ≤ top) × IsChoiceAt trail.now.steps.items f × NoChoice trail.now.steps.items (f + 1) (top + 1)) }
{
    let mut at = top + 1;
    while at > start {
        at -= 1;
        if chosen(trail.steps[at].reason) {
            return Some(at);
        }
    }
    None
}

/// The first choice from `from` on, or the end.
pub fn next_choice(trail: &Trail, from: usize) -> usize
    requires { from ≤ length trail.now.steps.items }
    ensures above { from ≤ result }
    ensures within { result ≤ length trail.now.steps.items }
    ensures none { NoChoice trail.now.steps.items from result }
    ensures choice { result < length trail.now.steps.items → IsChoiceAt trail.now.steps.items result }
{
    let mut at = from;
    while at < trail.steps.len() {
        if chosen(trail.steps[at].reason) {
            return at;
        }
        at += 1;
    }
    at
}

/// The literal of the greatest place, but for one.
pub fn latest(clause: &[u32], but: u32, place: &[usize]) -> Option<u32> {
    let mut found: Option<u32> = None;
    let mut greatest = 0;
    for lit in clause {
        let here = place.get((*lit / 2) as usize).copied().unwrap_or(0);
        if *lit != but && (found.is_none() || here > greatest) {
            found = Some(*lit);
            greatest = here;
        }
    }
    found
}

/// The clause's last literal, and of the others the one of the greatest place.
pub fn pair(clause: &[u32], place: &[usize]) -> Option<(u32, u32)> {
    let last = *clause.last()?;
    Some((last, latest(clause, last, place)?))
}

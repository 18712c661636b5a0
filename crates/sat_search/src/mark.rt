ghost use Rattle.std.specs.Prelude.{◌≡◌, ◌≢◌, ℕ, ◌+◌, ◌*◌, ◌/◌, ◌%◌, ◌<◌, ◌≤◌, ◌⊎◌, Bool, true, false, length, slice_index, OnOk};
ghost use Rattle.std.specs.List.{Contains};
ghost use Rattle.sat_engine.specs.Trail.{IsSet, lit_at};
ghost use Rattle.sat_engine.specs.Look.{InRange};
ghost use Rattle.sat_search.specs.Mark.{MarkedOne, MarkedAll, IsNext};

use crate::guide::Guide;
use kv_base::NoMemory;
use sat_engine::Trail;

/// Marks a literal's variable, unless it was set before `start`, and lists the literal if it was set before `floor`.
fn mark_one(
    guide: &mut Guide,
    m: u32,
    place: &[usize],
    start: usize,
    floor: usize,
    marks: &mut [bool],
    low: &mut Vec<u32>,
) -> Result<(), NoMemory>
    requires range { m / 2 < length place.now }
    requires room { m / 2 < length marks.old }
    ensures { OnOk result (MarkedOne m place.now start floor marks.old marks.new low.old.items low.new.items) }
{
    let v = (m / 2) as usize;
    if marks[v] || place[v] < start {
        return Ok(());
    }
    guide.bump(m);
    if place[v] < floor {
        low.push(m)?;
        marks[v] = true;
        return Ok(());
    }
    marks[v] = true;
    Ok(())
}

/// Marks the variables of a clause, but for `skip`'s.
pub fn mark_all(
    guide: &mut Guide,
    clause: &[u32],
    place: &[usize],
    start: usize,
    floor: usize,
    skip: u32,
    marks: &mut [bool],
    low: &mut Vec<u32>,
) -> Result<(), NoMemory>
    requires range { InRange clause.now (2 * length place.now) }
    requires room { InRange clause.now (2 * length marks.old) }
    ensures { OnOk result (MarkedAll clause.now (length clause.now) place.now start floor skip marks.old marks.new low.old.items low.new.items) }
{
    for m in clause {
        let m = *m;
        if m == skip {
            continue;
        }
        mark_one(guide, m, place, start, floor, marks, low)?;
    }
    Ok(())
}

/// Unmarks the variables of a clause.
pub fn unmark(clause: &[u32], marks: &mut [bool])
    requires { InRange clause.now (2 * length marks.old) }
    ensures { (v : ℕ) → IsSet marks.new v → IsSet marks.old v × ((l : ℕ) → Contains clause.now l → l / 2 ≢ v) }
{
    for lit in clause {
        marks[(*lit / 2) as usize] = false;
    }
}

/// The last marked place from `floor` on and before `top`.
pub fn next_marked(trail: &Trail, marks: &[bool], floor: usize, top: usize) -> Option<usize>
    requires top { top ≤ length trail.now.steps.items }
    requires room { length trail.now.truth.items ≤ 2 * length marks.now }
    ensures { IsNext trail.now.steps.items marks.now floor top result }
{
    let mut at = top;
    while at > floor {
        at -= 1;
        if marks[(trail.steps[at].lit / 2) as usize] {
            return Some(at);
        }
    }
    None
}

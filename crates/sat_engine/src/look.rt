ghost use Rattle.std.specs.Prelude.{◌≡◌, ℕ, ◌+◌, ◌*◌, ◌/◌, ◌%◌, ◌<◌, ◌≤◌, Bool, true, false, length};
ghost use Rattle.sat_engine.specs.Look.{InRange, LookSays};

use crate::literal::complement;
use crate::trail::Reason;

/// What a clause says beside one of its literals.
#[derive(Clone, Copy, Debug)]
pub enum Seen {
    /// a further literal that isn't false
    Open(u32),
    /// all others are false
    Unit,
    /// all are false
    False,
}

/// Whether the literal is set true.
pub fn is_true(truth: &[bool], lit: u32) -> bool {
    match truth.get(lit as usize) {
        Some(b) => *b,
        None => false,
    }
}

/// Whether a literal of the clause other than `other` is not false.
pub fn look_at(clause: &[u32], truth: &[bool], other: u32) -> Seen
    requires range { InRange clause.now (length truth.now) }
    requires even { length truth.now % 2 ≡ 0 }
    ensures { LookSays clause.now truth.now other result }
{
    let mut found = false;
    for m in clause {
        let m = *m;
        if truth[complement(m) as usize] {
            continue;
        }
        if m != other {
            return Seen::Open(m);
        }
        found = true;
    }
    if found { Seen::Unit } else { Seen::False }
}

/// Two literals of the clause that are not false, where it has no true one.
pub fn open_pair(clause: &[u32], truth: &[bool]) -> Option<(u32, u32)>
    requires range { InRange clause.now (length truth.now) }
    requires even { length truth.now % 2 ≡ 0 }
{
    let mut first: Option<u32> = None;
    for lit in clause {
        let lit = *lit;
        if truth[lit as usize] {
            return None;
        }
        if truth[complement(lit) as usize] || first == Some(lit) {
            continue;
        }
        match first {
            None => first = Some(lit),
            Some(other) => return Some((other, lit)),
        }
    }
    None
}

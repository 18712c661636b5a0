ghost use Rattle.std.specs.Prelude.{◌≡◌, ◌≤◌, ◌↔◌, IsTrue, map};
ghost use Rattle.sat_clause.specs.Literals.{AreBelow};
ghost use Rattle.kv_clause.specs.Blocks.{block_at, block_of, literal_in};

use kv_clause::{Block, Clause, Clauses, Template, in_block};

/// Whether this is block `i` of the template.
pub fn is_block(t: &Template, i: u32, block: &Block) -> bool
    requires { i ≤ 255 }
    ensures { IsTrue result ↔ (block.now ≡ block_at t.now i) }
{
    block.index == i && are_clauses(t, i, &block.clauses)
}

/// Whether these are the clauses of block `i`.
fn are_clauses(t: &Template, i: u32, clauses: &Clauses) -> bool
    requires { i ≤ 255 }
    ensures { IsTrue result ↔ (clauses.now ≡ block_of t.now i) }
{
    let of = t.clauses.as_slice();
    let clauses = clauses.as_slice();
    if of.len() != clauses.len() {
        return false;
    }
    for at in 0..of.len() {
        if !is_clause(t, i, &of[at], &clauses[at]) {
            return false;
        }
    }
    true
}

/// Whether this is what a clause of the template is in block `i`.
fn is_clause(t: &Template, i: u32, of: &Clause, clause: &Clause) -> bool
    requires near { i ≤ 255 }
    requires below { AreBelow t.now.vars of.now }
    ensures { IsTrue result ↔ (clause.now ≡ map (literal_in t.now i) of.now) }
{
    let of = of.as_slice();
    let clause = clause.as_slice();
    if of.len() != clause.len() {
        return false;
    }
    for at in 0..of.len() {
        if clause[at] != in_block(t, i, of[at]) {
            return false;
        }
    }
    true
}

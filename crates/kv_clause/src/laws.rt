//! Laws of the definitions that contracts here and above cite. Each call does nothing: its contract is the law.
ghost use Rattle.std.specs.Prelude.{ℕ, suc, ◌≡◌, ◌+◌, ◌-◌, ◌^◌, ◌<◌, ◌≤◌, ◌++◌, ◌↔◌, Bool, true, List, take};
ghost use Rattle.sat_clause.specs.Literals.{ClausesAreBelow, MeetsAll, AreTrue, clause_holds, later, truths};
ghost use Rattle.kv_clause.specs.Blocks.{stride, variable_in};
ghost use Rattle.kv_clause.specs.Queries.{blocks_in, blocks_of, vars_of, fixed, asked, lits_of, query};
ghost use Rattle.kv_clause.specs.declared.query.Query.TheVariants.{Base, Forward, Step, First, Induct, Closing};
ghost use Rattle.kv_clause.specs.Chains.{MeetsArrivals, MeetsBreak, MeetsBreakUnder, MeetsLeaving};

use crate::bound::Bounds;
use crate::query::Query;
use crate::template::Template;
use sat_clause::Assignment;

/// The last `state` variables of a block are the first of the next.
pub fn end_is_next_beginning(t: &Template)
    ensures { (i j : ℕ) → j < t.now.state → variable_in t.now i (t.now.vars - t.now.state + j) ≡ variable_in t.now (i + 1) j }
{}

/// An assignment meets a query's clauses exactly where it meets the fixed ones and the asked literals are true.
pub fn query_is_fixed_and_asked(t: &Template, q: &Query)
    ensures { (A : ℕ → Bool) → MeetsAll A (query t.now q.now) ↔ (MeetsAll A (fixed t.now q.now) × AreTrue A (asked t.now q.now)) }
{}

/// An assignment of more blocks, cut to the variables of the first `k`, meets their clauses.
pub fn longer_restricts(t: &Template, a: &Assignment)
    ensures { (k n : ℕ) → k ≤ n → MeetsAll (truths a.now) (blocks_of t.now n) → MeetsAll (truths (take (vars_of t.now k) a.now)) (blocks_of t.now k) }
{}

/// What is left of an assignment after the first block meets the clauses of one block less.
pub fn rest_meets_the_rest(t: &Template)
    ensures { (A : ℕ → Bool) (k : ℕ) → MeetsAll A (blocks_of t.now (k + 1)) → MeetsAll (later (stride t.now) A) (blocks_of t.now k) }
{}

/// The clauses of a query are over the variables of its blocks.
pub fn query_is_over_its_blocks(t: &Template, q: &Query)
    ensures { 1 ≤ blocks_in q.now → ClausesAreBelow (vars_of t.now (blocks_in q.now)) (query t.now q.now) }
{}

/// From the start, k blocks arrive and the next breaks: an assignment meets the query exactly where it meets them one
/// after another.
pub fn base_block_by_block(t: &Template, k: u32)
    ensures { (A : ℕ → Bool) → MeetsAll A (query t.now (Base (suc k))) ↔ (MeetsAll A t.now.start × MeetsBreak t.now k A) }
{}

/// The same of k blocks that arrive.
pub fn forward_block_by_block(t: &Template, k: u32)
    ensures { (A : ℕ → Bool) → MeetsAll A (query t.now (Forward k)) ↔ (MeetsAll A t.now.start × MeetsArrivals t.now k A) }
{}

/// The same from a loop head, with bounds at the beginning of each block.
pub fn step_block_by_block(t: &Template, k: u32, under: &Bounds)
    ensures step { (A : ℕ → Bool) → MeetsAll A (query t.now (Step (suc k) under.now)) ↔ (MeetsAll A t.now.head × MeetsBreakUnder t.now under.now k A) }
    ensures closing { (A : ℕ → Bool) → MeetsAll A (query t.now (Closing (suc k) under.now)) ↔ (MeetsAll A t.now.head × MeetsBreakUnder t.now under.now k A) }
{}

/// The same of one block that arrives where some bound of a set is false.
pub fn set_block_by_block(t: &Template, round: u32, set: &Bounds)
    ensures first { (A : ℕ → Bool) → MeetsAll A (query t.now (First round set.now)) ↔ (MeetsAll A t.now.start × MeetsLeaving t.now set.now A) }
    ensures induct { (A : ℕ → Bool) → MeetsAll A (query t.now (Induct round set.now)) ↔ (MeetsAll A t.now.head × AreTrue A (lits_of t.now.bounds set.now) × MeetsLeaving t.now set.now A) }
{}

ghost use Rattle.std.specs.Prelude.{◌≡◌, ◌+◌, ◌≤◌, ◌<◌, ◌^◌, ◌++◌, IfOk, OnOk, map};
ghost use Rattle.sat_clause.specs.Literals.{variable_of, AreBelow};
ghost use Rattle.kv_clause.specs.Blocks.{literal_in};
ghost use Rattle.kv_clause.specs.Queries.{arrivals, asked, blocks_in, bounds_at, bounds_before, breaks_last, has_bound, lits_of};

use crate::bound::{Bound, BoundLits, Bounds};
use crate::query::Query;
use crate::template::Template;
use kv_base::{NoMemory, Sequence};
use sat_clause::{Lit, Lits};
use std::alloc::Global;

/// The literals of a query that a solver may assume: which blocks arrive, which breaks, and which bounds hold. The
/// query has from 1 to 256 blocks.
pub fn asked_literals(alloc: Global, t: &Template, q: &Query) -> Result<Lits, NoMemory>
    requires some { 1 ≤ blocks_in q.now }
    requires few { blocks_in q.now ≤ 256 }
    ensures { IfOk result (λ ls. ls ≡ asked t.now q.now) }
{
    match q {
        Query::Base { k } => breaking(alloc, t, *k),
        Query::Forward { k } => arriving(alloc, t, *k),
        Query::Step { k, under } => breaking_under(alloc, t, under, *k),
        Query::First { .. } => Ok(Sequence::new(alloc)),
        Query::Induct { .. } => Ok(Sequence::new(alloc)),
        Query::Closing { k, under } => breaking_under(alloc, t, under, *k),
    }
}

/// The breaks of the last of k blocks, with the bounds before each block.
fn breaking_under(alloc: Global, t: &Template, under: &Bounds, k: u32) -> Result<Lits, NoMemory>
    requires some { 1 ≤ k }
    requires few { k ≤ 256 }
    ensures { IfOk result (λ ls. ls ≡ bounds_before t.now under.now k ++ breaks_last t.now k) }
{
    let bounds = bound_literals(alloc, t, under)?;
    let mut made = Sequence::new(alloc);
    for i in 0..k {
        made.append(in_block_each(alloc, t, i, &bounds)?)?;
    }
    made.append(breaking(alloc, t, k)?)?;
    Ok(made)
}

/// The breaks of the last of k blocks.
fn breaking(alloc: Global, t: &Template, k: u32) -> Result<Lits, NoMemory>
    requires some { 1 ≤ k }
    requires few { k ≤ 256 }
    ensures { IfOk result (λ ls. ls ≡ breaks_last t.now k) }
{
    let mut made = arriving(alloc, t, k - 1)?;
    made.push(in_block(t, k - 1, t.broken))?;
    Ok(made)
}

/// The arrivals of k blocks.
pub(crate) fn arriving(alloc: Global, t: &Template, k: u32) -> Result<Lits, NoMemory>
    requires { k ≤ 256 }
    ensures { IfOk result (λ ls. ls ≡ arrivals t.now k) }
{
    let mut made = Sequence::new(alloc);
    for i in 0..k {
        made.push(in_block(t, i, t.next))?;
    }
    Ok(made)
}

/// What a literal of the template is in block i.
pub fn in_block(t: &Template, i: u32, lit: Lit) -> Lit
    requires near { i < 256 }
    requires below { variable_of lit < t.now.vars }
    ensures { result ≡ literal_in t.now i lit }
{
    lit.moved(u64::from(i) * (t.vars - t.state))
}

// What literals of the template are in block i.
/// These literals, in block i.
fn in_block_each(alloc: Global, t: &Template, i: u32, lits: &Lits) -> Result<Lits, NoMemory>
    requires near { i < 256 }
    requires below { AreBelow t.now.vars lits.now }
    ensures { IfOk result (λ ls. ls ≡ map (literal_in t.now i) lits.now) }
{
    let mut made = Sequence::new(alloc);
    for lit in lits.as_slice() {
        made.push(in_block(t, i, *lit))?;
    }
    Ok(made)
}

/// The literals that say in block i that the bounds hold at its beginning, in the candidates' order.
pub fn bounds_of_block(alloc: Global, t: &Template, set: &Bounds, i: u32) -> Result<Lits, NoMemory>
    requires { i < 256 }
    ensures { IfOk result (λ ls. ls ≡ bounds_at t.now set.now i) }
{
    let bounds = bound_literals(alloc, t, set)?;
    let made = in_block_each(alloc, t, i, &bounds)?;
    Ok(made)
}

// The literals of the candidates that stand in the set, in the candidates' order.
/// The literals of a set's bounds.
fn bound_literals(alloc: Global, t: &Template, set: &Bounds) -> Result<Lits, NoMemory>
    ensures value { IfOk result (λ ls. ls ≡ lits_of t.now.bounds set.now) }
    ensures below { IfOk result (AreBelow t.now.vars) }
{
    let mut made = Sequence::new(alloc);
    for candidate in t.bounds.as_slice() {
        if is_among(&candidate.bound, set) {
            made.push(candidate.lit)?;
        }
    }
    Ok(made)
}

/// Whether a set has a bound.
fn is_among(bound: &Bound, set: &Bounds) -> bool
    ensures { result ≡ has_bound set.now bound.now }
{
    set.as_slice().contains(bound)
}

ghost use Rattle.std.specs.Prelude.{◌≡◌, ◌+◌, ◌≤◌, ◌<◌, ◌++◌, ◌∷◌, [], IfOk, OnOk, map};
ghost use Rattle.sat_clause.specs.Literals.{complement_of, units};
ghost use Rattle.kv_clause.specs.Queries.{beginning_of, blocks_in, blocks_of, further_of, fixed, leaves_set, query, vars_of};

use crate::asked::{arriving, asked_literals, bounds_of_block};
use crate::blocks::Blocks;
use crate::bound::Bounds;
use crate::query::Query;
use crate::template::Template;
use kv_base::{Copied, NoMemory, Sequence};
use sat_clause::{Clause, Clauses, Cnf, Lits};
use std::alloc::Global;

/// All clauses of a query over these blocks, and how many variables they have. The query has from 1 to 256 blocks, and
/// no more than there are. The blocks stay as they were made.
pub fn query_clauses<B: Blocks>(alloc: Global, blocks: &mut B, q: &Query) -> Result<Cnf, NoMemory>
    requires some { 1 ≤ blocks_in q.now }
    requires few { blocks_in q.now ≤ 256 }
    requires within { blocks_in q.now ≤ B.count blocks.old }
    requires ready { B.ready blocks.old }
    ensures template { B.of blocks.new ≡ B.of blocks.old }
    ensures count { B.count blocks.new ≡ B.count blocks.old }
    ensures held { B.held blocks.new ≡ B.held blocks.old }
    ensures ready { B.ready blocks.new }
    ensures vars { IfOk result (λ cnf. cnf.vars ≡ vars_of (B.of blocks.old) (blocks_in q.now)) }
    ensures clauses { IfOk result (λ cnf. cnf.clauses ≡ query (B.of blocks.old) q.now) }
{
    let mut cnf = fixed_clauses(alloc, blocks, q)?;
    let asked = asked_literals(alloc, blocks.template(), q)?;
    cnf.clauses.append(units_of(alloc, &asked)?)?;
    Ok(cnf)
}

/// The clauses of a query that are no asked literals, and how many variables the query's blocks have. The conditions
/// are those of `query_clauses`.
pub fn fixed_clauses<B: Blocks>(alloc: Global, blocks: &mut B, q: &Query) -> Result<Cnf, NoMemory>
    requires some { 1 ≤ blocks_in q.now }
    requires few { blocks_in q.now ≤ 256 }
    requires within { blocks_in q.now ≤ B.count blocks.old }
    requires ready { B.ready blocks.old }
    ensures template { B.of blocks.new ≡ B.of blocks.old }
    ensures count { B.count blocks.new ≡ B.count blocks.old }
    ensures held { B.held blocks.new ≡ B.held blocks.old }
    ensures ready { B.ready blocks.new }
    ensures vars { IfOk result (λ cnf. cnf.vars ≡ vars_of (B.of blocks.old) (blocks_in q.now)) }
    ensures clauses { IfOk result (λ cnf. cnf.clauses ≡ fixed (B.of blocks.old) q.now) }
{
    let vars = vars_of_blocks(blocks.template(), q.blocks());
    let mut clauses = beginning(alloc, blocks.template(), q)?;
    append_blocks(alloc, blocks, q.blocks(), &mut clauses)?;
    clauses.append(further(alloc, blocks.template(), q)?)?;
    Ok(Cnf { vars, clauses })
}

/// How many variables the first `k` blocks have, at most 256 of them.
pub fn vars_of_blocks(t: &Template, k: u32) -> u64
    requires { k ≤ 256 }
    ensures { result ≡ vars_of t.now k }
{
    t.state + u64::from(k) * (t.vars - t.state)
}

// The start or head clauses, as the query begins.
/// The clauses of a query's beginning.
fn beginning(alloc: Global, t: &Template, q: &Query) -> Result<Clauses, NoMemory>
    ensures { IfOk result (λ cs. cs ≡ beginning_of t.now q.now) }
{
    match q {
        Query::Base { .. } | Query::Forward { .. } | Query::First { .. } => t.start.copy(alloc),
        Query::Step { .. } | Query::Induct { .. } | Query::Closing { .. } => t.head.copy(alloc),
    }
}

// Puts the clauses of the first k blocks at the end.
/// Appends the clauses of k blocks.
fn append_blocks<B: Blocks>(
    alloc: Global,
    blocks: &mut B,
    k: u32,
    clauses: &mut Clauses,
) -> Result<(), NoMemory>
    requires within { k ≤ B.count blocks.old }
    requires ready { B.ready blocks.old }
    ensures template { B.of blocks.new ≡ B.of blocks.old }
    ensures count { B.count blocks.new ≡ B.count blocks.old }
    ensures held { B.held blocks.new ≡ B.held blocks.old }
    ensures ready { B.ready blocks.new }
    ensures clauses { OnOk result (clauses.new ≡ clauses.old ++ blocks_of (B.of blocks.old) k) }
{
    for i in 0..k {
        let block = blocks.block(i)?;
        clauses.append(block.clauses.copy(alloc)?)?;
    }
    Ok(())
}

// What the query says beyond its beginning and its blocks.
/// What a query asks besides its blocks, as clauses.
fn further(alloc: Global, t: &Template, q: &Query) -> Result<Clauses, NoMemory>
    ensures { IfOk result (λ cs. cs ≡ further_of t.now q.now) }
{
    match q {
        Query::First { set, .. } => leaving(alloc, t, set),
        Query::Induct { set, .. } => {
            let mut made = units_of(alloc, &bounds_of_block(alloc, t, set, 0)?)?;
            made.append(leaving(alloc, t, set)?)?;
            Ok(made)
        }
        _ => Ok(Sequence::new(alloc)),
    }
}

// Block 0 arrives, and some bound of the set is false at the arrival.
/// The clauses that say that a block leaves a set of bounds.
fn leaving(alloc: Global, t: &Template, set: &Bounds) -> Result<Clauses, NoMemory>
    ensures { IfOk result (λ cs. cs ≡ leaves_set t.now set.now) }
{
    let mut made = units_of(alloc, &arriving(alloc, t, 1)?)?;
    let arrived = bounds_of_block(alloc, t, set, 1)?;
    made.push(complements(alloc, &arrived)?)?;
    Ok(made)
}

/// The clause of these literals' complements.
fn complements(alloc: Global, lits: &Lits) -> Result<Clause, NoMemory>
    ensures { IfOk result (λ c. c ≡ map complement_of lits.now) }
{
    let mut made = Sequence::new(alloc);
    for lit in lits.as_slice() {
        made.push(lit.complement())?;
    }
    Ok(made)
}

// Each literal as a clause of its own.
/// A clause for each literal.
fn units_of(alloc: Global, lits: &Lits) -> Result<Clauses, NoMemory>
    ensures { IfOk result (λ cs. cs ≡ units lits.now) }
{
    let mut made = Sequence::new(alloc);
    for lit in lits.as_slice() {
        made.push(Sequence::from_slice(alloc, &[*lit])?)?;
    }
    Ok(made)
}

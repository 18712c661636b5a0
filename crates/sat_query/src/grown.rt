//! A kept solver's clauses of blocks.
ghost use Rattle.std.specs.Prelude.{ℕ, ◌≡◌, ◌≤◌, ◌++◌, OnOk};
ghost use Rattle.sat_clause.specs.Literals.{ClausesAreBelow};
ghost use Rattle.sat_query.specs.KeepingBlocks.{Holds, HoldsBlocks, IsEmpty, first_of};

use crate::kept::Kept;
use kv_base::NoMemory;
use kv_clause::{Blocks, Template};
use sat_clause::Clauses;

/// Adds all clauses.
fn add_all(kept: &mut Kept, clauses: &Clauses) -> Result<(), NoMemory>
    ensures clauses { OnOk result (kept.new.clauses ≡ kept.old.clauses ++ clauses.now) }
    ensures log { OnOk result (kept.new.log ≡ kept.old.log) }
    ensures vars { OnOk result ((n : ℕ) → kept.old.vars ≤ n → ClausesAreBelow n clauses.now → kept.new.vars ≤ n) }
{
    for clause in clauses.as_slice() {
        kept.add(clause)?;
    }
    Ok(())
}

/// The start or head clauses.
fn first_clauses(template: &Template, from_start: bool) -> &Clauses
    ensures { result.now ≡ first_of template.now from_start }
{
    if from_start {
        &template.start
    } else {
        &template.head
    }
}

/// Adds the start or head clauses.
fn begin(kept: &mut Kept, template: &Template, from_start: bool) -> Result<(), NoMemory>
    requires { IsEmpty kept.old }
    ensures holds { OnOk result (HoldsBlocks template.now from_start 0 kept.new) }
    ensures log { OnOk result (kept.new.log ≡ kept.old.log) }
{
    add_all(kept, first_clauses(template, from_start))?;
    Ok(())
}

/// Adds the blocks from number `from` on, up to `to` of them in all.
fn add_blocks<B: Blocks>(
    kept: &mut Kept,
    blocks: &mut B,
    _from_start: bool,
    from: u32,
    to: u32,
) -> Result<(), NoMemory>
    requires order { from ≤ to }
    requires within { to ≤ B.count blocks.old }
    requires ready { B.ready blocks.old }
    requires holds { HoldsBlocks (B.of blocks.old) _from_start from kept.old }
    ensures template { B.of blocks.new ≡ B.of blocks.old }
    ensures count { B.count blocks.new ≡ B.count blocks.old }
    ensures held { B.held blocks.new ≡ B.held blocks.old }
    ensures ready { B.ready blocks.new }
    ensures holds { OnOk result (HoldsBlocks (B.of blocks.old) _from_start to kept.new) }
    ensures log { OnOk result (kept.new.log ≡ kept.old.log) }
{
    for i in from..to {
        let block = blocks.block(i)?;
        add_all(kept, &block.clauses)?;
    }
    Ok(())
}

/// Adds what it hasn't yet of the start or head clauses and the first `to` blocks.
pub fn grow<B: Blocks>(
    kept: &mut Kept,
    blocks: &mut B,
    from_start: bool,
    from: u32,
    to: u32,
) -> Result<(), NoMemory>
    requires order { from ≤ to }
    requires within { to ≤ B.count blocks.old }
    requires ready { B.ready blocks.old }
    requires holds { Holds (B.of blocks.old) from_start from kept.old }
    ensures template { B.of blocks.new ≡ B.of blocks.old }
    ensures count { B.count blocks.new ≡ B.count blocks.old }
    ensures held { B.held blocks.new ≡ B.held blocks.old }
    ensures ready { B.ready blocks.new }
    ensures holds { OnOk result (HoldsBlocks (B.of blocks.old) from_start to kept.new) }
    ensures log { OnOk result (kept.new.log ≡ kept.old.log) }
{
    if from == 0 {
        begin(kept, blocks.template(), from_start)?;
        add_blocks(kept, blocks, from_start, 0, to)?;
        return Ok(());
    }
    add_blocks(kept, blocks, from_start, from, to)?;
    Ok(())
}

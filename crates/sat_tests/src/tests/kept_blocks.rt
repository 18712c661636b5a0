ghost use Rattle.std.specs.Prelude.{◌≡◌, ◌≤◌, true};
ghost use Rattle.sat_query.specs.KeepingBlocks.{IsOver};

use crate::tests::clauses::lits;
use kv_base::{NoMemory, Sequence};
use kv_clause::{Blocks, PlainBlocks, Query, Template, clauses_are_below};
use sat_clause::{Clauses, Lit};
use sat_core::NeverPoll;
use sat_query::{KeptAnswer, KeptBlocks};
use std::alloc::Global;
use std::process::Abort;
use std::test::Fail;

/// The clauses of these literals.
fn clauses(alloc: Global, numbers: &[&[i8]]) -> Result<Clauses, NoMemory> {
    let mut made = Sequence::new(alloc);
    for clause in numbers {
        made.push(lits(alloc, clause)?)?;
    }
    Ok(made)
}

/// A counter of three bits, 1 to 3, that begins at 0. Each block adds its input, 4, so 9 to 11 are the bits after it; 6
/// and 7 are the carries. It breaks where it stands at five, as 8 says, and always arrives, as 5 says.
fn counter(alloc: Global, rt: &impl Abort) -> Result<Template, NoMemory> {
    let block: [&[i8]; 23] = [
        &[5],
        &[-6, 1],
        &[-6, 4],
        &[6, -1, -4],
        &[-7, 2],
        &[-7, 6],
        &[7, -2, -6],
        &[-9, 1, 4],
        &[-9, -1, -4],
        &[9, -1, 4],
        &[9, 1, -4],
        &[-10, 2, 6],
        &[-10, -2, -6],
        &[10, -2, 6],
        &[10, 2, -6],
        &[-11, 3, 7],
        &[-11, -3, -7],
        &[11, -3, 7],
        &[11, 3, -7],
        &[-8, 1],
        &[-8, -2],
        &[-8, 3],
        &[8, -1, 2, -3],
    ];
    let block = clauses(alloc, &block)?;
    let start = clauses(alloc, &[&[-1], &[-2], &[-3]])?;
    assert!(rt; clauses_are_below(&block, 11));
    assert!(rt; clauses_are_below(&start, 11));
    Ok(Template {
        vars: 11,
        state: 3,
        clauses: block,
        start,
        head: Sequence::new(alloc),
        broken: Lit::new(7, false),
        next: Lit::new(4, false),
        bounds: Sequence::new(alloc),
        sites: Sequence::new(alloc),
    })
}

/// What is answered where k - 1 blocks arrive and the next breaks.
fn breaks_after<B: Blocks>(
    kept: &mut KeptBlocks,
    blocks: &mut B,
    k: u32,
    budget: u32,
) -> Result<KeptAnswer, NoMemory>
    requires begins { kept.old.from_start ≡ true }
    requires some { 1 ≤ k }
    requires few { k ≤ 256 }
    requires within { k ≤ B.count blocks.old }
    requires ready { B.ready blocks.old }
    requires over { IsOver (B.of blocks.old) kept.old }
    requires growing { kept.old.blocks ≤ k }
    ensures begins { kept.new.from_start ≡ true }
    ensures over { IsOver (B.of blocks.new) kept.new }
    ensures asked { kept.new.blocks ≡ k }
    ensures count { B.count blocks.new ≡ B.count blocks.old }
    ensures ready { B.ready blocks.new }
{
    kept.ask(blocks, &Query::Base { k }, budget, &mut NeverPoll::new())
}

/// Whether fewer than six blocks break nowhere, and six break at the end of the last.
fn breaks_at_six<B: Blocks>(kept: &mut KeptBlocks, blocks: &mut B) -> Result<bool, NoMemory>
    requires begins { kept.old.from_start ≡ true }
    requires within { 6 ≤ B.count blocks.old }
    requires ready { B.ready blocks.old }
    requires over { IsOver (B.of blocks.old) kept.old }
    requires first { kept.old.blocks ≡ 0 }
{
    for k in 1..6u32 {
        let answer = breaks_after(kept, blocks, k, 0)?;
        if !matches!(&answer, KeptAnswer::Unsat) {
            return Ok(false);
        }
    }
    let answer = breaks_after(kept, blocks, 6, 0)?;
    Ok(matches!(&answer, KeptAnswer::Sat(found) if found.len() == 51))
}

#[test]
fn a_chain_is_asked_step_by_step(rt: HostRuntime) -> Result<(), Fail> {
    let alloc = rt.alloc();
    let mut blocks = PlainBlocks::new(alloc, counter(alloc, &rt)?, 6);
    let breaks = breaks_at_six(&mut KeptBlocks::new(alloc, true), &mut blocks)?;
    assert!(rt; breaks);
    Ok(())
}

/// Whether a budget of one clause is spent at five blocks, and none refutes them.
fn spends_and_goes_on<B: Blocks>(kept: &mut KeptBlocks, blocks: &mut B) -> Result<bool, NoMemory>
    requires begins { kept.old.from_start ≡ true }
    requires within { 5 ≤ B.count blocks.old }
    requires ready { B.ready blocks.old }
    requires over { IsOver (B.of blocks.old) kept.old }
    requires first { kept.old.blocks ≡ 0 }
{
    let spent = breaks_after(kept, blocks, 5, 1)?;
    let is_spent = matches!(&spent, KeptAnswer::Spent(log) if log.len() == 1);
    let refuted = breaks_after(kept, blocks, 5, 0)?;
    Ok(is_spent && matches!(&refuted, KeptAnswer::Unsat))
}

#[test]
fn a_budget_spent_on_a_chain_is_no_end(rt: HostRuntime) -> Result<(), Fail> {
    let alloc = rt.alloc();
    let mut blocks = PlainBlocks::new(alloc, counter(alloc, &rt)?, 6);
    let goes_on = spends_and_goes_on(&mut KeptBlocks::new(alloc, true), &mut blocks)?;
    assert!(rt; goes_on);
    Ok(())
}

#[test]
fn three_blocks_from_a_head_break(rt: HostRuntime) -> Result<(), Fail> {
    let alloc = rt.alloc();
    let mut blocks = PlainBlocks::new(alloc, counter(alloc, &rt)?, 6);
    let step = Query::Step {
        k: 3,
        under: Sequence::new(alloc),
    };
    let mut kept = KeptBlocks::new(alloc, false);
    let answer = kept.ask(&mut blocks, &step, 0, &mut NeverPoll::new())?;
    assert!(rt; matches!(&answer, KeptAnswer::Sat(found) if found.len() == 27));
    Ok(())
}

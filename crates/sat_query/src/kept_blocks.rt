ghost use Rattle.std.specs.Prelude.{ℕ, ◌≡◌, ◌-◌, ◌≤◌, [], length, true, false, IsErr, IfOk, OnOk, OnErr};
ghost use Rattle.sat_clause.specs.Literals.{truths};
ghost use Rattle.kv_clause.specs.declared.template.Template.{Template as Made};
ghost use Rattle.kv_clause.specs.Queries.{blocks_in, vars_of};
ghost use Rattle.sat_core.specs.Polling.{StaysReady, WasAsked};
ghost use Rattle.sat_query.specs.Keeping.{is_stopped};
ghost use Rattle.sat_query.specs.KeepingBlocks.{BeginsAt, BlocksSay, HoldsBlocks, IsFilled, IsOver, LearnsOver};

use crate::grown::grow;
use crate::kept::{Kept, KeptAnswer};
use kv_base::NoMemory;
use kv_clause::{Blocks, Query, asked_literals, vars_of_blocks};
use sat_clause::{Assignment, Log};
use sat_core::Poll;
use std::alloc::Global;
use std::marker::Model;

/// A kept solver over the blocks of one template: it holds the start clauses, or the head clauses, and as many blocks as
/// it was asked about, and adds those that it hasn't yet. Once it was refused memory, it answers `NoMemory` from then on.
#[derive(Drop)]
pub struct KeptBlocks {
    alloc: Global,
    from_start: bool,
    blocks: u32,
    kept: Kept,
    is_refused: bool,
}

impl Model for KeptBlocks {
    ghost use Rattle.sat_query.specs.HeldBlocks.{HeldBlocks};

    ghost Value = { HeldBlocks };

    ghost view = { λ k. record { from_start = k.from_start; blocks = k.blocks; solver = k.kept; refused = k.is_refused } };
}

/// The assignment with a value for each of so many variables: those past its end are false.
fn lengthened(found: Assignment, vars: u64) -> Result<Assignment, NoMemory>
    ensures size { IfOk result (λ made. length found ≤ vars → length made ≡ vars) }
    ensures same { IfOk result (λ made. (v : ℕ) → truths made v ≡ truths found v) }
{
    let mut made = found;
    while (made.len() as u64) < vars {
        made.push(false)?;
    }
    Ok(made)
}

/// The answer with a value for each of so many variables.
fn filled(answer: KeptAnswer, vars: u64) -> Result<KeptAnswer, NoMemory>
    ensures { IfOk result (IsFilled vars answer) }
{
    match answer {
        KeptAnswer::Sat(found) => {
            let made = lengthened(found, vars)?;
            Ok(KeptAnswer::Sat(made))
        }
        KeptAnswer::Unsat => Ok(KeptAnswer::Unsat),
        KeptAnswer::Spent(log) => Ok(KeptAnswer::Spent(log)),
        KeptAnswer::Stopped => Ok(KeptAnswer::Stopped),
    }
}

/// Asks the solver, which holds the query's blocks.
fn asked_of<B: Blocks, P: Poll>(
    alloc: Global,
    kept: &mut Kept,
    _from_start: bool,
    blocks: &B,
    q: &Query,
    budget: u32,
    poll: &mut P,
) -> Result<KeptAnswer, NoMemory>
    requires query { BeginsAt _from_start q.now }
    requires some { 1 ≤ blocks_in q.now }
    requires few { blocks_in q.now ≤ 256 }
    requires ready { B.ready blocks.now }
    requires holds { HoldsBlocks (B.of blocks.now) _from_start (blocks_in q.now) kept.old }
    requires poll { P.ready poll.old }
    ensures holds { OnOk result (HoldsBlocks (B.of blocks.now) _from_start (blocks_in q.now) kept.new) }
    ensures learns { OnOk result (LearnsOver (B.of blocks.now) q.now kept.old.log kept.new.log budget) }
    ensures answer { IfOk result (λ answer. BlocksSay (B.of blocks.now) q.now kept.old.log kept.new.log budget answer) }
    ensures poll { StaysReady P.ready P.held poll.old poll.new }
    ensures asked { IfOk result (λ answer. WasAsked P.asks P.yeses poll.old poll.new (length kept.new.log - length kept.old.log) (is_stopped answer)) }
{
    let vars = vars_of_blocks(blocks.template(), q.blocks());
    let lits = asked_literals(alloc, blocks.template(), q)?;
    let answer = kept.ask(&lits, budget, poll)?;
    let made = filled(answer, vars)?;
    Ok(made)
}

impl KeptBlocks {
    /// No clauses yet. It is for queries that begin at the start, or for those that begin at a head. It takes no memory.
    pub fn new(alloc: Global, from_start: bool) -> KeptBlocks
        ensures begins { result.from_start ≡ from_start }
        ensures blocks { result.blocks ≡ 0 }
        ensures log { result.solver.log ≡ [] }
        ensures working { result.refused ≡ false }
        ensures over { (T : Made) → IsOver T result }
    {
        KeptBlocks {
            alloc,
            from_start,
            blocks: 0,
            kept: Kept::new(alloc),
            is_refused: false,
        }
    }

    /// Searches for an assignment that meets the query, whose asked literals it assumes, with a budget of clauses to
    /// learn, none where it is 0. It was only used with blocks of the same template, and with no greater number of them;
    /// the query has from 1 to 256 blocks, and no more than there are. A yes of the poll is its last ask. The blocks stay
    /// as they were made. A checker with the query's fixed clauses and the log confirms an `Unsat`.
    pub fn ask<B: Blocks, P: Poll>(
        &mut self,
        blocks: &mut B,
        q: &Query,
        budget: u32,
        poll: &mut P,
    ) -> Result<KeptAnswer, NoMemory>
        requires query { BeginsAt self.old.from_start q.now }
        requires some { 1 ≤ blocks_in q.now }
        requires few { blocks_in q.now ≤ 256 }
        requires within { blocks_in q.now ≤ B.count blocks.old }
        requires ready { B.ready blocks.old }
        requires over { IsOver (B.of blocks.old) self.old }
        requires growing { self.old.blocks ≤ blocks_in q.now }
        requires poll { P.ready poll.old }
        ensures answer { IfOk result (λ answer. BlocksSay (B.of blocks.old) q.now self.old.solver.log self.new.solver.log budget answer) }
        ensures learns { OnOk result (LearnsOver (B.of blocks.old) q.now self.old.solver.log self.new.solver.log budget) }
        ensures over { IsOver (B.of blocks.old) self.new }
        ensures begins { self.new.from_start ≡ self.old.from_start }
        ensures blocks { self.new.blocks ≡ blocks_in q.now }
        ensures working { OnOk result (self.new.refused ≡ false) }
        ensures broken { OnErr result (self.new.refused ≡ true) }
        ensures refused { self.old.refused ≡ true → IsErr result }
        ensures template { B.of blocks.new ≡ B.of blocks.old }
        ensures count { B.count blocks.new ≡ B.count blocks.old }
        ensures kept_blocks { B.held blocks.new ≡ B.held blocks.old }
        ensures ready { B.ready blocks.new }
        ensures poll { StaysReady P.ready P.held poll.old poll.new }
        ensures asked { IfOk result (λ answer. WasAsked P.asks P.yeses poll.old poll.new (length self.new.solver.log - length self.old.solver.log) (is_stopped answer)) }
    {
        let from = self.blocks;
        self.blocks = q.blocks();
        if self.is_refused {
            return Err(NoMemory);
        }
        self.is_refused = true;
        grow(&mut self.kept, blocks, self.from_start, from, self.blocks)?;
        let answer = asked_of(
            self.alloc,
            &mut self.kept,
            self.from_start,
            blocks,
            q,
            budget,
            poll,
        )?;
        self.is_refused = false;
        Ok(answer)
    }

    /// The clauses that were learnt, in the order in which they were.
    pub fn log(&self) -> &Log
        ensures { result.now ≡ self.now.solver.log }
    {
        self.kept.log()
    }
}

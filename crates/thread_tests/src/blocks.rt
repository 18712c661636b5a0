//! The unwinding.
ghost use Rattle.std.specs.Prelude.{◌≡◌, ◌≤◌, ◌<◌, IfSome, IfOk, OnOk, length};
ghost use Rattle.unwind_log.specs.Seats.{IsSeatOf, known_after};

use kv_base::{Copied, NoMemory, Sequence};
use kv_clause::{Block, Blocks, Clause, Clauses, Lit, Template, clauses_are_below, shift};
use std::alloc::Global;
use std::process::Abort;
use std::test::Fail;
use std::thread;
use std::thread::Threads;
use unwind_log::{SeatBlocks, UnwindSeat, Unwinding};

/// The clause of these variables.
fn clause(alloc: Global, variables: &[u32]) -> Result<Clause, NoMemory> {
    let mut made = Sequence::new(alloc);
    for variable in variables {
        made.push(Lit::new(u64::from(*variable), false))?;
    }
    Ok(made)
}

/// One clause of these variables.
fn one_clause(alloc: Global, variables: &[u32]) -> Result<Clauses, NoMemory> {
    let mut made = Sequence::new(alloc);
    made.push(clause(alloc, variables)?)?;
    Ok(made)
}

/// A template of 10 variables, 3 of them state, with one clause over variables 4 and 9.
fn template(alloc: Global, rt: &impl Abort) -> Result<Template, NoMemory> {
    let clauses = one_clause(alloc, &[4, 9])?;
    assert!(rt; clauses_are_below(&clauses, 10));
    Ok(Template {
        vars: 10,
        state: 3,
        clauses,
        start: Sequence::new(alloc),
        head: Sequence::new(alloc),
        broken: Lit::new(8, false),
        next: Lit::new(9, false),
        bounds: Sequence::new(alloc),
        sites: Sequence::new(alloc),
    })
}

/// Block 3, as a seat of a thread's own reads it.
fn third(alloc: Global, unwinding: &Unwinding, mut seat: UnwindSeat) -> Option<Block>
    requires within { 3 < length unwinding.now.cells.items }
    requires seat { IsSeatOf unwinding.now seat }
{
    let block = unwinding.block(&mut seat, 3).ok()?;
    block.copy(alloc).ok()
}

/// Block 3, as two threads read it.
fn third_twice<R: Threads + Sync>(
    rt: &R,
    alloc: Global,
    unwinding: &Unwinding,
    one: UnwindSeat,
    two: UnwindSeat,
) -> (Option<Block>, Option<Block>)
    requires within { 3 < length unwinding.now.cells.items }
    requires one { IsSeatOf unwinding.now one }
    requires two { IsSeatOf unwinding.now two }
{
    let mut one = Some(one);
    let mut two = Some(two);
    thread::join_mut(
        rt,
        &mut || -> Option<Block>
            requires within { 3 < length unwinding.now.cells.items }
            requires seat { IfSome one (IsSeatOf unwinding.now) }
        { third(alloc, unwinding, one.take()?) },
        &mut || -> Option<Block>
            requires within { 3 < length unwinding.now.cells.items }
            requires seat { IfSome two (IsSeatOf unwinding.now) }
        { third(alloc, unwinding, two.take()?) },
    )
}

#[test]
fn two_threads_read_block_3(rt: HostRuntime) -> Result<(), Fail> {
    let alloc = rt.alloc();
    let unwinding = Unwinding::new(alloc, template(alloc, &rt)?, 10)?;
    let one = unwinding.seat()?;
    let two = unwinding.seat()?;
    let (one, two) = third_twice(&rt, alloc, &unwinding, one, two);
    let want = one_clause(alloc, &[25, 30])?;
    assert!(rt; one.is_some_and(|block| block.index == 3 && block.clauses == want));
    assert!(rt; two.is_some_and(|block| block.index == 3 && block.clauses == want));
    assert_eq!(rt; unwinding.template().vars, 10);
    Ok(())
}

/// Whether two blocks that a seat reads, one after another, are as they should be. The seat then knows both.
fn reads_both(
    unwinding: &Unwinding,
    seat: &mut UnwindSeat,
    one: &Block,
    two: &Block,
) -> Result<bool, NoMemory>
    requires one { one.now.index < length unwinding.now.cells.items }
    requires two { two.now.index < length unwinding.now.cells.items }
    requires seat { IsSeatOf unwinding.now seat.old }
    ensures seat { IsSeatOf unwinding.now seat.new }
    ensures known { OnOk result (seat.new.known ≡ known_after two.now.index (known_after one.now.index seat.old.known)) }
{
    let first = seat.block(unwinding, one.index)?.clauses == one.clauses;
    let second = seat.block(unwinding, two.index)?.clauses == two.clauses;
    Ok(first && second)
}

#[test]
fn a_seat_reads_one_block_after_another(rt: HostRuntime) -> Result<(), Fail> {
    let alloc = rt.alloc();
    let t = template(alloc, &rt)?;
    let (three, zero) = (shift(alloc, &t, 3)?, shift(alloc, &t, 0)?);
    let unwinding = Unwinding::new(alloc, t, 10)?;
    let mut seat = unwinding.seat()?;
    assert!(rt; reads_both(&unwinding, &mut seat, &three, &zero)?);
    assert!(rt; reads_both(&unwinding, &mut seat, &zero, &three)?);
    assert_eq!(rt; seat.known().as_slice(), [3, 0].as_slice());
    assert_eq!(rt; seat.built(), 2);
    Ok(())
}

/// How many of so many blocks are as they should be, asked for from the first to the last, or from the last to the first.
fn read<B: Blocks>(blocks: &mut B, want: &[Block], upwards: bool) -> Result<usize, NoMemory>
    requires within { length want.now ≤ B.count blocks.old }
    requires few { length want.now ≤ 256 }
    requires ready { B.ready blocks.old }
{
    let mut same = 0;
    for step in 0..want.len() {
        let at = if upwards { step } else { want.len() - 1 - step };
        let block = blocks.block(at as u32)?;
        if block.index == want[at].index && block.clauses == want[at].clauses {
            same += 1;
        }
    }
    Ok(same)
}

/// What a seat found: how many blocks were as they should be, how many it knows, and how many it built.
#[derive(Debug, Drop, PartialEq, Eq)]
struct Tally {
    same: usize,
    known: usize,
    built: u32,
}

/// Reads as many blocks as are wanted, by a seat.
fn read_all(
    unwinding: &Unwinding,
    mut seat: UnwindSeat,
    want: &[Block],
    upwards: bool,
) -> Result<Tally, NoMemory>
    requires within { length want.now ≤ length unwinding.now.cells.items }
    requires few { length want.now ≤ 256 }
    requires seat { IsSeatOf unwinding.now seat }
{
    let mut blocks = SeatBlocks::new(unwinding, &mut seat);
    let same = read(&mut blocks, want, upwards)?;
    Ok(Tally {
        same,
        known: seat.known().len(),
        built: seat.built(),
    })
}

/// The first blocks of the template, so many.
fn wanted(alloc: Global, t: &Template, blocks: u32) -> Result<Vec<Block>, NoMemory>
    requires { blocks ≤ 256 }
    ensures { IfOk result (λ v. length v.items ≡ blocks) }
{
    let mut made = Vec::new(alloc);
    for i in 0..blocks {
        made.push(shift(alloc, t, i)?)?;
    }
    Ok(made)
}

#[test]
fn a_second_seat_builds_nothing(rt: HostRuntime) -> Result<(), Fail> {
    let alloc = rt.alloc();
    let t = template(alloc, &rt)?;
    let want = wanted(alloc, &t, 10)?;
    let unwinding = Unwinding::new(alloc, t, 10)?;
    let one = unwinding.seat()?;
    let two = unwinding.seat()?;
    let first = read_all(&unwinding, one, want.as_slice(), true)?;
    let second = read_all(&unwinding, two, want.as_slice(), true)?;
    assert_eq!(rt;
        first,
        Tally {
            same: 10,
            known: 10,
            built: 10
        }
    );
    assert_eq!(rt;
        second,
        Tally {
            same: 10,
            known: 10,
            built: 0
        }
    );
    Ok(())
}

/// What two threads find that ask for the blocks in opposite orders.
fn read_by_two<R: Threads + Sync>(
    rt: &R,
    unwinding: &Unwinding,
    one: UnwindSeat,
    two: UnwindSeat,
    want: &[Block],
) -> (Option<Tally>, Option<Tally>)
    requires within { length want.now ≤ length unwinding.now.cells.items }
    requires few { length want.now ≤ 256 }
    requires one { IsSeatOf unwinding.now one }
    requires two { IsSeatOf unwinding.now two }
{
    let mut one = Some(one);
    let mut two = Some(two);
    thread::join_mut(
        rt,
        &mut || -> Option<Tally>
            requires within { length want.now ≤ length unwinding.now.cells.items }
            requires few { length want.now ≤ 256 }
            requires seat { IfSome one (IsSeatOf unwinding.now) }
        { read_all(unwinding, one.take()?, want, true).ok() },
        &mut || -> Option<Tally>
            requires within { length want.now ≤ length unwinding.now.cells.items }
            requires few { length want.now ≤ 256 }
            requires seat { IfSome two (IsSeatOf unwinding.now) }
        { read_all(unwinding, two.take()?, want, false).ok() },
    )
}

/// Whether two threads find 100 blocks as they should be, each built once or twice.
fn is_shared<R: Threads + Sync>(
    rt: &R,
    alloc: Global,
    t: &Template,
    want: &[Block],
) -> Result<bool, NoMemory>
    requires { length want.now ≡ 100 }
{
    let unwinding = Unwinding::new(alloc, t.copy(alloc)?, 100)?;
    let one = unwinding.seat()?;
    let two = unwinding.seat()?;
    let (one, two) = read_by_two(rt, &unwinding, one, two, want);
    let (Some(one), Some(two)) = (one, two) else {
        return Ok(false);
    };
    let all = one.same == 100 && two.same == 100 && one.known == 100 && two.known == 100;
    let few = one.built <= 100 && two.built <= 100;
    Ok(all && few && one.built.saturating_add(two.built) >= 100)
}

#[test]
fn opposite_orders_share_blocks(rt: HostRuntime) -> Result<(), Fail> {
    let alloc = rt.alloc();
    let t = template(alloc, &rt)?;
    let want = wanted(alloc, &t, 100)?;
    for _ in 0..1000u32 {
        assert!(rt; is_shared(&rt, alloc, &t, want.as_slice())?);
    }
    Ok(())
}

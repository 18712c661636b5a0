//! The machine on programs made by hand.

use c_replay::{RunEnd, replay};
use c_straight_model::{Addend, BlockItem, CheckKind, Operand, Program, Relation, Sign, Sum};
use kv_base::{Bytes, Copied, NoMemory, Sequence};
use std::alloc::Global;
use std::test::Fail;

fn name(alloc: Global) -> Result<Bytes, NoMemory> {
    Bytes::from_slice(alloc, b"x")
}

fn sum(alloc: Global, first: Operand, sign: Sign, numbers: &[u32]) -> Result<Sum, NoMemory> {
    let mut rest = Sequence::new(alloc);
    for number in numbers {
        let operand = Operand::Number { value: *number };
        rest.push(Addend { sign, operand })?;
    }
    Ok(Sum { first, rest })
}

// int x = number; x = x + 1; assert(x RELATION first - rest - ..); each on a line of its own, from 2 on.
fn program(
    alloc: Global,
    number: u32,
    relation: Relation,
    first: u32,
    rest: &[u32],
) -> Result<Program, NoMemory> {
    let mut items = Sequence::new(alloc);
    let value = Operand::Number { value: number };
    items.push(BlockItem::Declare {
        name: name(alloc)?,
        value: sum(alloc, value, Sign::Plus, &[])?,
        line: 2,
    })?;
    let x = Operand::Name { name: name(alloc)? };
    items.push(BlockItem::Assign {
        name: name(alloc)?,
        value: sum(alloc, x, Sign::Plus, &[1])?,
        line: 3,
    })?;
    let x = Operand::Name { name: name(alloc)? };
    let first = Operand::Number { value: first };
    items.push(BlockItem::Assert {
        relation,
        left: sum(alloc, x, Sign::Plus, &[])?,
        right: sum(alloc, first, Sign::Minus, rest)?,
        line: 4,
    })?;
    Ok(Program { items })
}

#[test]
fn runs_end_as_c_says(rt: HostRuntime) -> Result<(), Fail> {
    let broken = RunEnd::Broken {
        check: CheckKind::Assertion,
        line: 4,
    };
    let least: &[u32] = &[2_147_483_647, 1];
    let rows: [(u32, Relation, u32, &[u32], RunEnd); 6] = [
        (3, Relation::Equal, 4, &[], RunEnd::Ended),
        (3, Relation::Equal, 5, &[], broken),
        (3, Relation::Unequal, 4, &[], broken),
        (3, Relation::Unequal, 5, &[], RunEnd::Ended),
        (2_147_483_647, Relation::Equal, 0, least, RunEnd::Ended),
        (2_147_483_647, Relation::Unequal, 0, least, broken),
    ];
    for (number, relation, first, rest, end) in rows {
        let program = program(rt.alloc(), number, relation, first, rest)?;
        let program = program.copy(rt.alloc())?;
        assert_eq!(rt; replay(rt.alloc(), &program, &[])?, end, "x = {number}");
        assert_eq!(rt; replay(rt.alloc(), &program, &[7])?, end, "x = {number}");
    }
    Ok(())
}

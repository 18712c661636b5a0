//! Templates, their blocks, and queries.
use kv_base::{Copied, NoMemory, Sequence};
use kv_clause::{
    Assignment, Block, Blocks, Bound, BoundLit, BoundLits, Bounds, Clause, Clauses, Lit,
    PlainBlocks, Query, Template, are_below, asked_literals, bounds_are_below, bounds_of_block,
    clauses_are_below, fixed_clauses, holds, in_block, is_true, query_clauses, shift,
    sites_are_below,
};
use std::alloc::Global;
use std::process::Abort;
use std::test::Fail;

// The clause of these literals, each a variable and whether it is the complement.
fn clause(alloc: Global, literals: &[(u32, bool)]) -> Result<Clause, NoMemory> {
    let mut made = Sequence::new(alloc);
    for (variable, is_complement) in literals {
        made.push(Lit::new(u64::from(*variable), *is_complement))?;
    }
    Ok(made)
}

fn one_clause(alloc: Global, literals: &[(u32, bool)]) -> Result<Clauses, NoMemory> {
    let mut made = Sequence::new(alloc);
    made.push(clause(alloc, literals)?)?;
    Ok(made)
}

// A template of 10 variables, 3 of them state, with one clause over variables 4 and 9, and no candidates.
fn template(alloc: Global, rt: &impl Abort) -> Result<Template, NoMemory> {
    template_with(alloc, rt, Sequence::new(alloc))
}

// The same with these candidates.
fn template_with(alloc: Global, rt: &impl Abort, bounds: BoundLits) -> Result<Template, NoMemory> {
    let clauses = one_clause(alloc, &[(4, false), (9, true)])?;
    let sites = Sequence::new(alloc);
    assert!(rt; clauses_are_below(&clauses, 10));
    assert!(rt; bounds_are_below(&bounds, 10) && sites_are_below(&sites, 10));
    Ok(Template {
        vars: 10,
        state: 3,
        clauses,
        start: Sequence::new(alloc),
        head: Sequence::new(alloc),
        broken: Lit::new(8, false),
        next: Lit::new(9, false),
        bounds,
        sites,
    })
}

fn is_same(a: &Block, b: &Block) -> bool {
    a.index == b.index && a.clauses == b.clauses
}

#[test]
fn block_three_moves_variable_4_to_25(rt: HostRuntime) -> Result<(), Fail> {
    let alloc = rt.alloc();
    let template = template(alloc, &rt)?;
    let block = shift(alloc, &template, 3)?;
    let want = one_clause(alloc, &[(25, false), (30, true)])?;
    assert!(rt; block.index == 3 && block.clauses == want);
    Ok(())
}

#[test]
fn two_plain_blocks_give_the_same(rt: HostRuntime) -> Result<(), Fail> {
    let alloc = rt.alloc();
    let template = template(alloc, &rt)?;
    let mut one = PlainBlocks::new(alloc, template.copy(alloc)?, 4);
    let mut two = PlainBlocks::new(alloc, template, 4);
    let _last = two.block(3)?;
    let first = one.block(2)?.copy(alloc)?;
    assert!(rt; is_same(&first, two.block(2)?));
    assert!(rt; one.template().vars == 10);
    Ok(())
}

fn prints(alloc: Global, rt: &impl Abort, q: &Query, want: &str) -> Result<(), NoMemory> {
    let name = q.copy(alloc)?.to_string(alloc)?;
    assert!(rt; name.as_str() == want);
    Ok(())
}

#[test]
fn queries_print_their_names(rt: HostRuntime) -> Result<(), Fail> {
    let alloc = rt.alloc();
    let under: Bounds = Sequence::new(alloc);
    let set: Bounds = Sequence::new(alloc);
    prints(alloc, &rt, &Query::Base { k: 1 }, "base case 1")?;
    prints(
        alloc,
        &rt,
        &Query::Forward { k: 20 },
        "forward condition 20",
    )?;
    let step = Query::Step {
        k: 2,
        under: under.copy(alloc)?,
    };
    prints(alloc, &rt, &step, "inductive step 2")?;
    let first = Query::First {
        round: 1,
        set: set.copy(alloc)?,
    };
    prints(alloc, &rt, &first, "first arrivals 1")?;
    prints(
        alloc,
        &rt,
        &Query::Induct { round: 3, set },
        "inductive subset 3",
    )?;
    prints(
        alloc,
        &rt,
        &Query::Closing { k: 2, under },
        "closing step 2",
    )?;
    Ok(())
}

fn truth(alloc: Global, rt: &impl Abort, c: &Clause) -> Result<bool, NoMemory> {
    let truths: Assignment = Sequence::from_slice(alloc, &[true, false])?;
    assert!(rt; are_below(c, 2));
    assert!(rt; truths.len() == 2);
    Ok(holds(c, &truths))
}

#[test]
fn a_clause_holds_by_one_literal(rt: HostRuntime) -> Result<(), Fail> {
    let alloc = rt.alloc();
    assert!(rt; !truth(alloc, &rt, &clause(alloc, &[])?)?);
    assert!(rt; truth(alloc, &rt, &clause(alloc, &[(0, false)])?)?);
    assert!(rt; truth(alloc, &rt, &clause(alloc, &[(1, false), (1, true)])?)?);
    assert!(rt; !truth(alloc, &rt, &clause(alloc, &[(1, false), (0, true)])?)?);
    Ok(())
}

#[test]
fn base_two_asks_one_arrival_and_one_break(rt: HostRuntime) -> Result<(), Fail> {
    let alloc = rt.alloc();
    let template = template(alloc, &rt)?;
    let query = Query::Base { k: 2 };
    let asked = asked_literals(alloc, &template, &query)?;
    let want = clause(alloc, &[(9, false), (15, false)])?;
    assert!(rt; asked == want);
    let mut blocks = PlainBlocks::new(alloc, template, 2);
    let fixed = fixed_clauses(alloc, &mut blocks, &query)?;
    assert!(rt; fixed.vars == 17 && fixed.clauses.len() == 2);
    let all = query_clauses(alloc, &mut blocks, &query)?;
    assert!(rt; all.vars == 17 && all.clauses.len() == 4);
    Ok(())
}

#[test]
fn a_variable_past_the_end_is_false(rt: HostRuntime) -> Result<(), Fail> {
    let truths: Assignment = Sequence::from_slice(rt.alloc(), &[true])?;
    assert!(rt; is_true(Lit::new(0, false), &truths) && !is_true(Lit::new(0, true), &truths));
    assert!(rt; !is_true(Lit::new(5, false), &truths) && is_true(Lit::new(5, true), &truths));
    Ok(())
}

// A cell is at least a number.
fn at_least(number: i128) -> Bound {
    Bound {
        head: 0,
        cell: 1,
        at_least: true,
        number,
    }
}

#[test]
fn bounds_are_moved_to_each_block(rt: HostRuntime) -> Result<(), Fail> {
    let alloc = rt.alloc();
    let (low, high) = (at_least(3), at_least(9));
    let mut bounds: BoundLits = Sequence::new(alloc);
    bounds.push(BoundLit {
        bound: low,
        lit: Lit::new(7, false),
    })?;
    bounds.push(BoundLit {
        bound: high,
        lit: Lit::new(2, false),
    })?;
    let template = template_with(alloc, &rt, bounds)?;
    let under: Bounds = Sequence::from_slice(alloc, &[high, low])?;
    let want = clause(alloc, &[(14, false), (9, false)])?;
    assert!(rt; bounds_of_block(alloc, &template, &under, 1)? == want);
    assert_eq!(rt; template.vars, 10);
    assert_eq!(rt;
        in_block(&template, 2, Lit::new(7, true)),
        Lit::new(21, true)
    );
    let asked = asked_literals(alloc, &template, &Query::Step { k: 2, under })?;
    let want = clause(
        alloc,
        &[
            (7, false),
            (2, false),
            (14, false),
            (9, false),
            (9, false),
            (15, false),
        ],
    )?;
    assert!(rt; asked == want);
    Ok(())
}

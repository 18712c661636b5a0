use crate::tests::clauses::pigeons;
use kv_base::NoMemory;
use sat_clause::Cnf;
use sat_core::{NeverPoll, PollAt};
use sat_query::{Asked, ask};
use std::alloc::Global;
use std::process::Abort;
use std::test::Fail;

#[test]
fn a_budget_of_one_is_spent(rt: HostRuntime) -> Result<(), Fail> {
    let cnf = pigeons(rt.alloc())?;
    let asked = ask(rt.alloc(), &cnf, 1, &mut NeverPoll::new())?;
    assert!(rt; matches!(&asked, Asked::Spent(log) if log.len() == 1));
    Ok(())
}

#[test]
fn pigeons_are_refuted(rt: HostRuntime) -> Result<(), Fail> {
    let cnf = pigeons(rt.alloc())?;
    let asked = ask(rt.alloc(), &cnf, 0, &mut NeverPoll::new())?;
    assert!(rt; matches!(&asked, Asked::Unsat(_)));
    Ok(())
}

/// Whether a poll that says yes at its n-th ask stops the search exactly where it was asked so often.
fn stops_at(alloc: Global, cnf: &Cnf, at: u64) -> Result<bool, NoMemory> {
    let mut poll = PollAt::new(at);
    let asked = ask(alloc, cnf, 0, &mut poll)?;
    Ok(match asked {
        Asked::Stopped => poll.yeses() == 1,
        Asked::Unsat(_) => poll.yeses() == 0,
        Asked::Sat(_) | Asked::Spent(_) => false,
    })
}

#[test]
fn a_yes_stops(rt: HostRuntime) -> Result<(), Fail> {
    let cnf = pigeons(rt.alloc())?;
    for at in 1..51u64 {
        assert!(rt; stops_at(rt.alloc(), &cnf, at)?);
    }
    Ok(())
}

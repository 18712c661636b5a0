use kv_base::{Copied, NoMemory, Sequence};
use proof_checker::{Checked, Checker, check};
use sat_clause::{Clause, Clauses, Cnf, Lit, Log};
use std::alloc::Global;
use std::process::Abort;
use std::test::Fail;

/// Clauses as text: a blank ends each, and a character is the literal of its code less that of '#'. So "#% " is the
/// clause of variables 0 and 1, and "$ " the complement of variable 0.
fn clauses(alloc: Global, text: &str) -> Result<Clauses, NoMemory> {
    let mut made = Sequence::new(alloc);
    let mut clause: Clause = Sequence::new(alloc);
    for byte in text.as_bytes() {
        if *byte == b' ' {
            made.push(clause)?;
            clause = Sequence::new(alloc);
        } else {
            clause.push(Lit::from_number(u64::from(byte.saturating_sub(b'#'))))?;
        }
    }
    Ok(made)
}

/// The clauses of a text, over 42 variables.
fn cnf(alloc: Global, text: &str) -> Result<Cnf, NoMemory> {
    Ok(Cnf {
        vars: 42,
        clauses: clauses(alloc, text)?,
    })
}

/// What `check` says of a log as text.
fn checked(alloc: Global, formula: &str, log: &str) -> Result<Checked, NoMemory> {
    check(alloc, &cnf(alloc, formula)?, &clauses(alloc, log)?)
}

/// The log without the step at this place.
fn dropped(alloc: Global, log: &Log, at: usize) -> Result<Log, NoMemory> {
    let mut made = Sequence::new(alloc);
    for (i, clause) in log.as_slice().iter().enumerate() {
        if i != at {
            made.push(clause.copy(alloc)?)?;
        }
    }
    Ok(made)
}

/// The log with the step at this place and the next in each other's place.
fn swapped(alloc: Global, log: &Log, at: usize) -> Result<Log, NoMemory> {
    let mut made = Sequence::new(alloc);
    let next = at.saturating_add(1);
    for i in 0..log.len() {
        let from = if i == at {
            next
        } else if i == next {
            at
        } else {
            i
        };
        if let Some(clause) = log.get(from) {
            made.push(clause.copy(alloc)?)?;
        }
    }
    Ok(made)
}

/// The clause with its first literal's complement in that literal's place.
fn flipped_first(alloc: Global, clause: &Clause) -> Result<Clause, NoMemory> {
    let mut made = Sequence::new(alloc);
    for lit in clause.as_slice() {
        if made.is_empty() {
            made.push(lit.complement())?;
        } else {
            made.push(*lit)?;
        }
    }
    Ok(made)
}

/// The log with one literal flipped, in the step at this place.
fn flipped(alloc: Global, log: &Log, at: usize) -> Result<Log, NoMemory> {
    let mut made = Sequence::new(alloc);
    for (i, clause) in log.as_slice().iter().enumerate() {
        if i == at {
            made.push(flipped_first(alloc, clause)?)?;
        } else {
            made.push(clause.copy(alloc)?)?;
        }
    }
    Ok(made)
}

// Five pigeons in four holes.
const FIVE_IN_FOUR: &str =
    "#%') +-/1 3579 ;=?A CEGI $, $4 ,4 $< ,< 4< $D ,D 4D <D &. &6 .6 &> .> 6> &F .F 6F >F (0 (8 08 (@ 0@ 8@ (H 0H 8H @H *2 *: 2: *B 2B :B *J 2J :J BJ ";

// What CaDiCaL learnt of it, without the steps that nothing rests on.
const FIVE_IN_FOUR_LOG: &str =
    "$>J >J (<J <J 4J J ,6' 06' 6' 24' &1C+ HA1;+ 4' ,A8 A18 .)G' 18' F8' 8' <&1 &E: E' ' >1 1A <9 A D  ";

#[test]
fn first_clauses(rt: HostRuntime) -> Result<(), Fail> {
    let alloc = rt.alloc();
    assert!(rt; checked(alloc, "#% #& ", "# ")? == Checked::Learns(1));
    assert!(rt; checked(alloc, "#% ", "# ")? == Checked::Bad { step: 0 });
    assert!(rt; checked(alloc, "# $% & ", " ")? == Checked::Refutes);
    Ok(())
}

#[test]
fn odd_clauses(rt: HostRuntime) -> Result<(), Fail> {
    let alloc = rt.alloc();
    // the empty clause is added: every clause follows
    assert!(rt; checked(alloc, " ", "# & ")? == Checked::Learns(2));
    assert!(rt; checked(alloc, "#% ", " ")? == Checked::Bad { step: 0 });
    // a literal that stands twice counts once
    assert!(rt; checked(alloc, "## $% ", "% %% ")? == Checked::Learns(2));
    // complementary literals say nothing of a variable, and such a clause follows from any
    assert!(rt; checked(alloc, "#$ ", "%& # ")? == Checked::Bad { step: 1 });
    // steps after the empty clause are not looked at
    assert!(rt; checked(alloc, "# $ ", " % ")? == Checked::Refutes);
    Ok(())
}

#[test]
fn five_pigeons_in_four_holes(rt: HostRuntime) -> Result<(), Fail> {
    let alloc = rt.alloc();
    let cnf = cnf(alloc, FIVE_IN_FOUR)?;
    let log = clauses(alloc, FIVE_IN_FOUR_LOG)?;
    assert!(rt; check(alloc, &cnf, &log)? == Checked::Refutes);
    assert!(rt; check(alloc, &cnf, &dropped(alloc, &log, 8)?)? == Checked::Bad { step: 20 });
    assert!(rt; check(alloc, &cnf, &dropped(alloc, &log, 28)?)? == Checked::Learns(28));
    assert!(rt; check(alloc, &cnf, &flipped(alloc, &log, 9)?)? == Checked::Bad { step: 9 });
    assert!(rt; check(alloc, &cnf, &flipped(alloc, &log, 27)?)? == Checked::Refutes);
    assert!(rt; check(alloc, &cnf, &swapped(alloc, &log, 4)?)? == Checked::Bad { step: 4 });
    assert!(rt; check(alloc, &cnf, &swapped(alloc, &log, 14)?)? == Checked::Refutes);
    Ok(())
}

/// Learns each clause of the text where it follows, and answers how many did.
fn learnt(alloc: Global, checker: &mut Checker, text: &str) -> Result<usize, NoMemory> {
    let mut many = 0usize;
    for clause in clauses(alloc, text)?.as_slice() {
        if checker.learn(clause)? {
            many = many.saturating_add(1);
        }
    }
    Ok(many)
}

#[test]
fn a_checker_grows(rt: HostRuntime) -> Result<(), Fail> {
    let alloc = rt.alloc();
    let mut checker = Checker::new(alloc);
    let a = Lit::new(0, false);
    let b = Lit::new(1, false);
    checker.add(&Sequence::from_slice(alloc, &[a.complement(), b])?)?;
    checker.add(&Sequence::from_slice(alloc, &[a])?)?;
    assert!(rt; !checker.refutes(&Sequence::from_slice(alloc, &[b])?)?);
    assert!(rt; learnt(alloc, &mut checker, "$ % ")? == 1);
    assert!(rt; checker.refutes(&Sequence::from_slice(alloc, &[b.complement()])?)?);
    let c = Lit::new(2, true);
    assert!(rt; !checker.refutes(&Sequence::from_slice(alloc, &[c])?)?);
    assert!(rt; checker.refutes(&Sequence::from_slice(alloc, &[c, c.complement()])?)?);
    Ok(())
}

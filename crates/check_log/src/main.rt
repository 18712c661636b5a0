//! Says what `check` says of each log: `check_log CNF LOG ..`. All files have clauses in the DIMACS form, each ended by 0.
//! Lines that begin with `c`, `p` or `d` (comments, the head, and clauses that a search forgot) are passed over.
#![tactic(auto)]

use proof_checker::{Checked, check};
use sat_clause::Cnf;
use sat_dimacs::read_dimacs;
use std::rt::Files;
use std::{env, fs, io};

/// The clauses of a file, or nothing where a word of it is no literal.
fn read(rt: &(impl Files + AllocGlobal), path: &str) -> io::Result<Option<Cnf>> {
    let text = fs::read_to_string(rt, path)?;
    let cnf = read_dimacs(rt.alloc(), text.as_str())?;
    Ok(cnf)
}

/// Says what a log shows over the clauses.
fn say(rt: &(impl Print + AllocGlobal), cnf: &Cnf, log: &Cnf) -> io::Result<()> {
    match check(rt.alloc(), cnf, &log.clauses)? {
        Checked::Refutes => println!(rt; "Refutes"),
        Checked::Learns(steps) => println!(rt; "Learns {steps}"),
        Checked::Bad { step } => println!(rt; "Bad {step}"),
    }
}

/// Reads the files that the words name, and says what each log shows.
fn main(rt: HostRuntime) -> io::Result<()> {
    let mut words = env::args(&rt)?.skip(1);
    let Some(path) = words.next() else {
        return println!(rt; "check_log CNF LOG ..");
    };
    let Some(cnf) = read(&rt, path.as_str())? else {
        return println!(rt; "not in the DIMACS form");
    };
    for path in words {
        match read(&rt, path.as_str())? {
            Some(log) => say(&rt, &cnf, &log)?,
            None => println!(rt; "not in the DIMACS form")?,
        }
    }
    Ok(())
}

//! Asks a kept solver one question after another: `solve_steps FILE`. The file has clauses in the DIMACS form, and between
//! them lines that begin with `a`, each a question: whether an assignment meets the clauses so far and makes the line's
//! literals true. The solver is kept from one question to the next.
#![tactic(auto)]

use kv_base::NoMemory;
use sat_clause::{Clauses, Lits};
use sat_core::NeverPoll;
use sat_dimacs::read_dimacs;
use sat_query::{Kept, KeptAnswer};
use std::alloc::Global;
use std::{env, fs, io};

/// Adds all clauses.
fn add_all(kept: &mut Kept, clauses: &Clauses) -> Result<(), NoMemory> {
    for clause in clauses.as_slice() {
        kept.add(clause)?;
    }
    Ok(())
}

/// Asks under these literals: what is written of the answer.
fn answered(kept: &mut Kept, asked: &Lits) -> Result<&'static str, NoMemory> {
    match kept.ask(asked, 0, &mut NeverPoll::new())? {
        KeptAnswer::Sat(_) => Ok("SATISFIABLE"),
        KeptAnswer::Unsat => Ok("UNSATISFIABLE"),
        KeptAnswer::Spent(_) | KeptAnswer::Stopped => Ok("INDETERMINATE"),
    }
}

/// What is written of a line: an answer to a question, and nothing of clauses.
fn taken(alloc: Global, kept: &mut Kept, line: &str) -> Result<Option<&'static str>, NoMemory> {
    if let Some(question) = line.strip_prefix('a') {
        let Some(read) = read_dimacs(alloc, question)? else {
            return Ok(Some("not in the DIMACS form"));
        };
        for asked in read.clauses.as_slice() {
            return Ok(Some(answered(kept, asked)?));
        }
        return Ok(None);
    }
    let Some(read) = read_dimacs(alloc, line)? else {
        return Ok(Some("not in the DIMACS form"));
    };
    add_all(kept, &read.clauses)?;
    Ok(None)
}

/// Writes what each line of the text is answered.
fn say(rt: &(impl Print + AllocGlobal), kept: &mut Kept, text: &str) -> io::Result<()> {
    for line in text.lines() {
        if let Some(said) = taken(rt.alloc(), kept, line)? {
            println!(rt; "{said}")?;
        }
    }
    Ok(())
}

/// Reads the file that the word names, and answers its questions.
fn main(rt: HostRuntime) -> io::Result<()> {
    let mut words = env::args(&rt)?.skip(1);
    let Some(path) = words.next() else {
        return println!(rt; "solve_steps FILE");
    };
    let text = fs::read_to_string(&rt, path.as_str())?;
    say(&rt, &mut Kept::new(rt.alloc()), text.as_str())
}

//! Says whether an assignment meets all clauses of a file: `solve_cnf CNF`. The file has clauses in the DIMACS form,
//! each ended by 0. Lines that begin with `c`, `p` or `d` (comments, the head, and clauses that a search forgot) are
//! passed over.
#![tactic(auto)]

use kv_base::{NoMemory, Sequence};
use sat_clause::{Clauses, Cnf};
use sat_core::{Answer, NeverPoll, Solver};
use sat_dimacs::read_dimacs;
use std::alloc::Global;
use std::rt::Files;
use std::{env, fs, io};

/// The clauses of a file, or nothing where a word of it is no literal.
fn read(rt: &(impl Files + AllocGlobal), path: &str) -> io::Result<Option<Cnf>> {
    let text = fs::read_to_string(rt, path)?;
    let cnf = read_dimacs(rt.alloc(), text.as_str())?;
    Ok(cnf)
}

/// Solves the clauses: what is written of them.
fn solved(alloc: Global, clauses: &Clauses) -> Result<&'static str, NoMemory> {
    let mut solver = Solver::new(alloc);
    for clause in clauses.as_slice() {
        solver.add(clause)?;
    }
    match solver.solve(&Sequence::new(alloc), 0, &mut NeverPoll::new())? {
        Answer::Sat(_) => Ok("SATISFIABLE"),
        Answer::Unsat => Ok("UNSATISFIABLE"),
        Answer::Spent | Answer::Stopped => Ok("INDETERMINATE"),
    }
}

/// Reads the file that the word names, and says whether its clauses can be met.
fn main(rt: HostRuntime) -> io::Result<()> {
    let mut words = env::args(&rt)?.skip(1);
    let Some(cnf) = words.next() else {
        return println!(rt; "solve_cnf CNF");
    };
    let Some(formula) = read(&rt, cnf.as_str())? else {
        return println!(rt; "not in the DIMACS form");
    };
    let said = solved(rt.alloc(), &formula.clauses)?;
    println!(rt; "{said}")
}

//! Clauses as text in the DIMACS form: whole numbers, each a literal (its variable counted from 1, with a minus for the
//! complement), and each clause ended by 0. Lines that begin with `c`, `p` or `d` (comments, the head, and clauses that
//! a search forgot) are passed over. No contract says what is read.
#![tactic(auto)]

use kv_base::{NoMemory, Sequence};
use sat_clause::{Clause, Clauses, Cnf, Lit};
use std::alloc::Global;

/// Clauses read so far, and the one whose end hasn't come.
#[derive(Drop)]
struct Reader {
    alloc: Global,
    clauses: Clauses,
    clause: Clause,
    vars: u64,
}

/// The literal of a word: its variable counted from 1, with a minus for the complement.
fn literal(word: &str) -> Option<Lit> {
    let number = word.parse::<i64>().ok()?;
    let variable = number.unsigned_abs().checked_sub(1)?;
    if variable >= 1 << 62 {
        return None;
    }
    Some(Lit::new(variable, number < 0))
}

/// Whether a line has no clauses.
fn is_passed_over(line: &str) -> bool {
    line.starts_with('c') || line.starts_with('p') || line.starts_with('d')
}

impl Reader {
    /// Nothing was read. It takes no memory.
    fn new(alloc: Global) -> Reader {
        Reader {
            alloc,
            clauses: Sequence::new(alloc),
            clause: Sequence::new(alloc),
            vars: 0,
        }
    }

    /// Ends the clause.
    fn end(&mut self) -> Result<(), NoMemory> {
        let mut clause = Sequence::new(self.alloc);
        std::mem::swap(&mut clause, &mut self.clause);
        self.clauses.push(clause)
    }

    /// Takes a line. False where a word of it is no literal.
    fn take(&mut self, line: &str) -> Result<bool, NoMemory> {
        if is_passed_over(line) {
            return Ok(true);
        }
        for word in line.split_whitespace() {
            if word == "0" {
                self.end()?;
                continue;
            }
            let Some(lit) = literal(word) else {
                return Ok(false);
            };
            self.vars = self.vars.max(lit.variable().saturating_add(1));
            self.clause.push(lit)?;
        }
        Ok(true)
    }
}

/// The clauses of a text, over as many variables as they name, or nothing where a word of it is no literal.
pub fn read_dimacs(alloc: Global, text: &str) -> Result<Option<Cnf>, NoMemory> {
    let mut reader = Reader::new(alloc);
    for line in text.lines() {
        if !reader.take(line)? {
            return Ok(None);
        }
    }
    Ok(Some(Cnf {
        vars: reader.vars,
        clauses: reader.clauses,
    }))
}

ghost use Rattle.std.specs.Prelude.{◌<◌};

use kv_base::{NoMemory, Sequence};
use sat_clause::{Clause, Cnf, Lit};
use sat_core::NeverPoll;
use sat_query::{Asked, ask};
use std::alloc::Global;
use std::process::Abort;
use std::test::Fail;

/// How many literals the formulas have, two of each variable.
const LITERALS: u64 = 10;

/// How many rows a truth table of their variables has.
const ROWS: u64 = 32;

// Three literals by their numbers.
type Triple = [u64; 3];

#[derive(Debug, Drop)]
struct Random {
    state: u64,
}

impl Random {
    /// The next number.
    fn next(&mut self, below: u64) -> u64
        requires { 0 < below }
    {
        let grown = self.state.wrapping_mul(6364136223846793005);
        self.state = grown.wrapping_add(1442695040888963407);
        (self.state >> 33) % below
    }

    /// Random triples of literals.
    fn triples(&mut self, alloc: Global, many: u64) -> Result<Vec<Triple>, NoMemory> {
        let mut made = Vec::new(alloc);
        for _triple in 0..many {
            let one = self.next(LITERALS);
            let two = self.next(LITERALS);
            made.push([one, two, self.next(LITERALS)])?;
        }
        Ok(made)
    }
}

/// Whether a literal is true in a row of the truth table.
fn is_true(lit: u64, row: u64) -> bool {
    let table = match lit / 2 {
        0 => row,
        1 => row / 2,
        2 => row / 4,
        3 => row / 8,
        _ => row / 16,
    };
    table % 2 != lit % 2
}

/// Whether a row of truths meets the clause.
fn is_met(triple: &Triple, row: u64) -> bool {
    let [one, two, three] = *triple;
    is_true(one, row) || is_true(two, row) || is_true(three, row)
}

/// Whether a row of truths meets all clauses.
fn are_met(triples: &[Triple], row: u64) -> bool {
    for triple in triples {
        if !is_met(triple, row) {
            return false;
        }
    }
    true
}

/// Whether some row of truths meets all clauses.
fn has_row(triples: &[Triple]) -> bool {
    for row in 0..ROWS {
        if are_met(triples, row) {
            return true;
        }
    }
    false
}

/// The clause of a triple.
fn clause_of(alloc: Global, triple: &Triple) -> Result<Clause, NoMemory> {
    let mut clause = Sequence::new(alloc);
    for number in triple {
        clause.push(Lit::from_number(*number))?;
    }
    Ok(clause)
}

/// The clauses of triples.
fn cnf_of(alloc: Global, triples: &[Triple]) -> Result<Cnf, NoMemory> {
    let mut clauses = Sequence::new(alloc);
    for triple in triples {
        clauses.push(clause_of(alloc, triple)?)?;
    }
    Ok(Cnf {
        vars: LITERALS / 2,
        clauses,
    })
}

/// Whether the answer is the truth table's.
fn agrees(alloc: Global, triples: &[Triple]) -> Result<bool, NoMemory> {
    let cnf = cnf_of(alloc, triples)?;
    Ok(match ask(alloc, &cnf, 0, &mut NeverPoll::new())? {
        Asked::Sat(_) => has_row(triples),
        Asked::Unsat(_) => !has_row(triples),
        Asked::Spent(_) | Asked::Stopped => false,
    })
}

#[test]
fn random_formulas(rt: HostRuntime) -> Result<(), Fail> {
    let mut random = Random { state: 1 };
    for turn in 0..500u64 {
        let triples = random.triples(rt.alloc(), 8 + turn % 32)?;
        assert!(rt; agrees(rt.alloc(), &triples)?);
    }
    Ok(())
}

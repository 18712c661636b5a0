ghost use Rattle.std.specs.Prelude.{◌↔◌, IsTrue};
ghost use Rattle.sat_clause.specs.Literals.{AreBelow, ClausesAreBelow};

use crate::literal::{Clauses, Lits};

/// Whether the variable of each literal is below `n`.
pub fn are_below(lits: &Lits, n: u64) -> bool
    ensures { IsTrue result ↔ AreBelow n lits.now }
{
    for lit in lits.as_slice() {
        if lit.variable() >= n {
            return false;
        }
    }
    true
}

/// Whether the variable of each literal of the clauses is below `n`.
pub fn clauses_are_below(clauses: &Clauses, n: u64) -> bool
    ensures { IsTrue result ↔ ClausesAreBelow n clauses.now }
{
    for clause in clauses.as_slice() {
        if !are_below(clause, n) {
            return false;
        }
    }
    true
}

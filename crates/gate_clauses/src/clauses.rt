ghost use Rattle.std.specs.Prelude.{◌≡◌, ◌∷◌, [], ◌++◌, ◌+◌, ◌<◌, ◌≤◌, ℕ, Bool, ◌&&◌, not, length, OnOk};
ghost use Rattle.kv_num.specs.Bits.{differ};
ghost use Rattle.sat_clause.specs.Literals.{variable_of, is_true, all_hold, ClausesAreBelow};

use kv_base::{NoMemory, Sequence};
use sat_clause::{Clauses, Lit};
use std::alloc::Global;

/// Adds a clause of one literal.
pub(crate) fn push_one(alloc: Global, clauses: &mut Clauses, a: Lit) -> Result<(), NoMemory>
    ensures { OnOk result (clauses.new ≡ clauses.old ++ (a ∷ []) ∷ []) }
{
    let mut clause = Sequence::new(alloc);
    clause.push(a)?;
    clauses.push(clause)
}

/// Adds a clause of two literals.
pub(crate) fn push_two(alloc: Global, clauses: &mut Clauses, a: Lit, b: Lit) -> Result<(), NoMemory>
    ensures { OnOk result (clauses.new ≡ clauses.old ++ (a ∷ b ∷ []) ∷ []) }
{
    let mut clause = Sequence::new(alloc);
    clause.push(a)?;
    clause.push(b)?;
    clauses.push(clause)
}

/// Adds a clause of three literals.
pub(crate) fn push_three(
    alloc: Global,
    clauses: &mut Clauses,
    a: Lit,
    b: Lit,
    c: Lit,
) -> Result<(), NoMemory>
    ensures { OnOk result (clauses.new ≡ clauses.old ++ (a ∷ b ∷ c ∷ []) ∷ []) }
{
    let mut clause = Sequence::new(alloc);
    clause.push(a)?;
    clause.push(b)?;
    clause.push(c)?;
    clauses.push(clause)
}

/// Adds the clauses of an equation of two literals.
pub(crate) fn push_equal(
    alloc: Global,
    clauses: &mut Clauses,
    v: Lit,
    a: Lit,
) -> Result<(), NoMemory>
    ensures says { OnOk result ((A : ℕ → Bool) → all_hold A clauses.new ≡ (all_hold A clauses.old && not (differ (is_true A v) (is_true A a)))) }
    ensures below { OnOk result ((n : ℕ) → variable_of v < n → variable_of a < n → ClausesAreBelow n clauses.old → ClausesAreBelow n clauses.new) }
{
    push_two(alloc, clauses, v.complement(), a)?;
    push_two(alloc, clauses, v, a.complement())
}

/// Adds the clauses of a literal that is true exactly where two are.
pub(crate) fn push_and(
    alloc: Global,
    clauses: &mut Clauses,
    v: Lit,
    a: Lit,
    b: Lit,
) -> Result<(), NoMemory>
    ensures says { OnOk result ((A : ℕ → Bool) → all_hold A clauses.new ≡ (all_hold A clauses.old && not (differ (is_true A v) (is_true A a && is_true A b)))) }
    ensures below { OnOk result ((n : ℕ) → variable_of v < n → variable_of a < n → variable_of b < n → ClausesAreBelow n clauses.old → ClausesAreBelow n clauses.new) }
    ensures few { OnOk result (length clauses.new ≤ length clauses.old + 4) }
{
    let n = v.complement();
    let x = a.complement();
    let y = b.complement();
    push_two(alloc, clauses, n, a)?;
    push_two(alloc, clauses, n, b)?;
    push_three(alloc, clauses, v, x, y)?;
    Ok(())
}

/// Adds the clauses of a literal that is true exactly where one of two is.
pub(crate) fn push_xor(
    alloc: Global,
    clauses: &mut Clauses,
    v: Lit,
    a: Lit,
    b: Lit,
) -> Result<(), NoMemory>
    ensures says { OnOk result ((A : ℕ → Bool) → all_hold A clauses.new ≡ (all_hold A clauses.old && not (differ (is_true A v) (differ (is_true A a) (is_true A b))))) }
    ensures below { OnOk result ((n : ℕ) → variable_of v < n → variable_of a < n → variable_of b < n → ClausesAreBelow n clauses.old → ClausesAreBelow n clauses.new) }
    ensures few { OnOk result (length clauses.new ≤ length clauses.old + 4) }
{
    let n = v.complement();
    let x = a.complement();
    let y = b.complement();
    push_three(alloc, clauses, n, a, b)?;
    push_three(alloc, clauses, n, x, y)?;
    push_three(alloc, clauses, v, x, b)?;
    push_three(alloc, clauses, v, a, y)?;
    Ok(())
}

//! Laws of what a check answers. Each call does nothing: its contract is the law.
ghost use Rattle.std.specs.Prelude.{ℕ, Bool, List};
ghost use Rattle.sat_clause.specs.Literals.{MeetsAll};
ghost use Rattle.proof_checker.specs.Checking.{IsRefutation, IsFirstBad, IsLearnt};

/// Where a log refutes clauses, no assignment meets them.
pub fn refuted_clauses_are_met_by_none()
    ensures { (F L : List (List ℕ)) → IsRefutation F L → (A : ℕ → Bool) → MeetsAll A F → ⊥ }
{}

/// A log that refutes has no step that doesn't follow, and is not one that only learns.
pub fn answers_exclude_one_another()
    ensures bad { (F L : List (List ℕ)) (n : ℕ) → IsRefutation F L → IsFirstBad F L n → ⊥ }
    ensures learns { (F L : List (List ℕ)) (n : ℕ) → IsRefutation F L → IsLearnt F L n → ⊥ }
    ensures neither { (F L : List (List ℕ)) (m n : ℕ) → IsLearnt F L m → IsFirstBad F L n → ⊥ }
{}

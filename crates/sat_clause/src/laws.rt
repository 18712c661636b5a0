//! Laws of the definitions that contracts here and above cite. Each call does nothing: its contract is the law.
ghost use Rattle.std.specs.Prelude.{ℕ, ◌≡◌, ◌^◌, ◌<◌, ◌++◌, Bool, true, List};
ghost use Rattle.sat_clause.specs.Literals.{MeetsAll, AreTrue, clause_holds};
ghost use Rattle.sat_clause.specs.Propagation.{Follows, IncludesNone, Refuted, Spent};
ghost use Rattle.sat_clause.specs.Sets.{HasAll};

/// Where the clauses are true, so is each that follows from them by unit propagation, and refuted literals are not all true.
pub fn propagation_is_sound()
    ensures follows { (A : ℕ → Bool) (F : List (List ℕ)) (c : List ℕ) → MeetsAll A F → Follows F c → clause_holds A c ≡ true }
    ensures refuted { (A : ℕ → Bool) (F : List (List ℕ)) (ls : List ℕ) → MeetsAll A F → Refuted F ls → AreTrue A ls → ⊥ }
{}

/// Further clauses keep what follows, and what is refuted.
pub fn more_clauses_keep()
    ensures follows { (F G : List (List ℕ)) (c : List ℕ) → Follows F c → Follows (F ++ G) c }
    ensures refuted { (F G : List (List ℕ)) (ls : List ℕ) → Refuted F ls → Refuted (F ++ G) ls }
{}

/// Clauses count as sets: where each clause of F is one of G, what follows from F follows from G, what F refutes G
/// refutes, and what includes no clause of G includes none of F.
pub fn clauses_count_as_sets()
    ensures follows { (F G : List (List ℕ)) (c : List ℕ) → HasAll G F → Follows F c → Follows G c }
    ensures refuted { (F G : List (List ℕ)) (ls : List ℕ) → HasAll G F → Refuted F ls → Refuted G ls }
    ensures fresh { (F G : List (List ℕ)) (c : List ℕ) → HasAll G F → IncludesNone G c → IncludesNone F c }
{}

/// Over n variables a budget of 3^n or more can't be spent.
pub fn spent_budget_is_small()
    ensures { (n budget : ℕ) (F log : List (List ℕ)) → Spent n F budget log → budget < 3 ^ n }
{}

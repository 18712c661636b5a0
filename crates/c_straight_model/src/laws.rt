ghost use Rattle.std.specs.Prelude.{◌≡◌, ℕ, List, []};
ghost use Rattle.c_straight_model.specs.declared.program.Program.{Program};
ghost use Rattle.c_straight_model.specs.Machine.{Configuration, Answer, IsEnd, step, Comes, Safe};

/// An execution has at most one end.
pub fn has_one_end()
    ensures { (program : Program) (inputs : List ℕ) (a b : Answer) → IsEnd a → IsEnd b → Comes program inputs a → Comes program inputs b → a ≡ b }
{}

/// Every execution of a straight program ends.
pub fn always_ends()
    ensures { (program : Program) (inputs : List ℕ) → (a : Answer) × IsEnd a × Comes program inputs a }
{}

/// An execution ends only where no item is left on the control stack.
pub fn ends_with_nothing_left()
    ensures { (program : Program) (inputs : List ℕ) (c : Configuration) → Comes program inputs (Answer.Next c) → step c ≡ Answer.Ended → c.control ≡ [] }
{}

/// A straight program asks for no input, so it ends alike on all lists of inputs.
pub fn ends_alike()
    ensures { (program : Program) (inputs others : List ℕ) (a : Answer) → IsEnd a → Comes program inputs a → Comes program others a }
{}

/// A straight program is safe where its run on no inputs ends unbroken.
pub fn ended_is_safe()
    ensures { (program : Program) → Comes program [] Answer.Ended → Safe program }
{}

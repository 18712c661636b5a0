//! Laws of the definitions. Each function computes nothing: its contract is the law.

ghost use Rattle.c_model.specs.Laws.{ArrivalsAreBare, BlockHasOneEnd, EndsAlike, EndsWhereCallsEnd, GoalsAgree, HasOneEnd, NoBlockIsEndless};
ghost use Rattle.c_model.specs.Worked.{WorkedArithmetic, WorkedAssertions, WorkedComparisons, WorkedConversions, WorkedObjects, WorkedOperands, WorkedPointers, WorkedShifts};

/// An execution has at most one end.
pub fn has_one_end()
    ensures { HasOneEnd }
{}

/// An execution that ends without an input ends so on all inputs.
pub fn ends_alike()
    ensures { EndsAlike }
{}

/// Where all checks are goals, a check breaks exactly where it breaks as the one goal.
pub fn goals_agree()
    ensures { GoalsAgree }
{}

/// A block has at most one end.
pub fn block_has_one_end()
    ensures { BlockHasOneEnd }
{}

/// The state at each arrival is one at which the bare machine arrives.
pub fn arrivals_are_bare()
    ensures { ArrivalsAreBare }
{}

/// Each block of an accepted program ends, and so does each block of a program in which no call leads back to its own
/// function.
pub fn no_block_is_endless()
    ensures accepted { NoBlockIsEndless }
    ensures by_calls { EndsWhereCallsEnd }
{}

/// Worked examples of operators, conversions, pointers and checks, each with one that breaks and one that does not.
pub fn machine_is_as_worked()
    ensures arithmetic { WorkedArithmetic }
    ensures shifts { WorkedShifts }
    ensures operands { WorkedOperands }
    ensures conversions { WorkedConversions }
    ensures pointers { WorkedPointers }
    ensures comparisons { WorkedComparisons }
    ensures objects { WorkedObjects }
    ensures assertions { WorkedAssertions }
{}

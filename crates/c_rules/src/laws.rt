//! Laws of the definitions. Each function computes nothing: its contract is the law.

ghost use Rattle.c_rules.specs.Laws.{CallsDescend, CallsHaveFunctions, CastsHaveTypes, EachHasAType, ForABrokenPair, ForOnePair, ForTheLeast, GoesByParts, InitialisersFit, IsAnswered, NamesHaveMeanings, NeverBoth, SizesHaveTypes, TableHasEachType};
ghost use Rattle.c_rules.specs.Worked.{WorkedAnswers};
ghost use Rattle.c_rules.specs.WorkedDeclarations.{WorkedDeclarations};
ghost use Rattle.c_rules.specs.WorkedEffects.{WorkedEffects};
ghost use Rattle.c_rules.specs.WorkedInitialisers.{WorkedInitialisers};
ghost use Rattle.c_rules.specs.WorkedNames.{WorkedNames};
ghost use Rattle.c_rules.specs.WorkedStatements.{WorkedStatements};

/// A text is accepted, or it is refused for one pair, and never both. That pair is the least of those that are broken.
pub fn one_answer()
    ensures answered { IsAnswered }
    ensures never_both { NeverBoth }
    ensures one { ForOnePair }
    ensures broken { ForABrokenPair }
    ensures least { ForTheLeast }
{}

/// What an expression is goes by what its parts are.
pub fn answers_go_by_parts()
    ensures { GoesByParts }
{}

/// In an accepted text each expression has a type, and so has its place in the program's table.
pub fn expressions_have_types()
    ensures each { EachHasAType }
    ensures in_table { TableHasEachType }
{}

/// Where expressions have types, names stand for objects, constants and functions, and type names for types.
pub fn names_have_meanings()
    ensures names { NamesHaveMeanings }
    ensures calls { CallsHaveFunctions }
    ensures casts { CastsHaveTypes }
    ensures sizes { SizesHaveTypes }
{}

/// In an accepted text no call leads back to its function: functions have ranks, and each call is of a function of a lower
/// rank than the one in which it stands.
pub fn calls_descend()
    ensures { CallsDescend }
{}

/// In an accepted text each initialiser breaks no rule: it has the form of the type of what it initialises, and where that
/// is static, its values are constants.
pub fn initialisers_fit()
    ensures { InitialisersFit }
{}

/// Worked examples: the types of expressions, and the rules that declarations, names, initialisers, statements and side
/// effects break.
pub fn rules_are_as_worked()
    ensures answers { WorkedAnswers }
    ensures declarations { WorkedDeclarations }
    ensures names { WorkedNames }
    ensures initialisers { WorkedInitialisers }
    ensures statements { WorkedStatements }
    ensures effects { WorkedEffects }
{}

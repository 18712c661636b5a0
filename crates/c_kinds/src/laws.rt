//! Laws of the definitions. Each function computes nothing: its contract is the law.

ghost use Rattle.c_kinds.specs.Laws.{OperatorsSpeak};
ghost use Rattle.c_kinds.specs.Worked.{
  WorkedAddresses,
  WorkedAssignments,
  WorkedConstants,
  WorkedConversions,
  WorkedOperators,
  WorkedSizes,
  WorkedTypes,
};

/// Worked examples of the tables: conversions, constants, types and sizes, operators, assignments and casts, and
/// address constants.
pub fn tables_are_as_worked()
    ensures conversions { WorkedConversions }
    ensures constants { WorkedConstants }
    ensures sizes { WorkedSizes }
    ensures types { WorkedTypes }
    ensures operators { WorkedOperators }
    ensures assignments { WorkedAssignments }
    ensures addresses { WorkedAddresses }
{}

/// An operator whose operands have types gives a result or breaks a rule.
pub fn operators_speak()
    ensures { OperatorsSpeak }
{}

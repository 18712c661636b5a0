//! Laws of the grammar. Each function's contract is one, and the function does nothing.

ghost use Rattle.c_grammar_laws.specs.Laws.{
  DeclarationTokensRise,
  ExpressionTokensRise,
  ExternalTokensRise,
  OneDeclaration,
  OneDeclarator,
  OneExpression,
  OneExternal,
  OneInitialiser,
  OneListOfSpecifiers,
  OneStatement,
  OneTree,
  OneTypeName,
  OwnTokensRise,
  ReadsWhatIsSpelled,
  RefusesTheRest,
  StatementTokensRise,
};

/// Tokens spell one expression of a level, where the next token goes on with none, and one type name before a `)`.
pub fn one_expression()
    ensures expression { OneExpression }
    ensures type_name { OneTypeName }
{}

/// Tokens spell one list of specifiers, one declarator and one initialiser, where the next token goes on with none,
/// and one declaration.
pub fn one_declaration()
    ensures specifiers { OneListOfSpecifiers }
    ensures declarator { OneDeclarator }
    ensures initialiser { OneInitialiser }
    ensures declaration { OneDeclaration }
{}

/// Tokens spell one statement, where no `else` follows that would belong to it, and one external declaration.
pub fn one_statement()
    ensures statement { OneStatement }
    ensures external { OneExternal }
{}

/// Tokens spell one tree at most, and the reader reads exactly the tree that they spell.
pub fn one_tree()
    ensures one { OneTree }
    ensures read { ReadsWhatIsSpelled }
    ensures refused { RefusesTheRest }
{}

/// The own tokens of a text's nodes rise in the order of the text: no two are equal, and those of a part lie within the
/// tokens that spell it.
pub fn own_tokens()
    ensures expression { ExpressionTokensRise }
    ensures declaration { DeclarationTokensRise }
    ensures statement { StatementTokensRise }
    ensures external { ExternalTokensRise }
    ensures text { OwnTokensRise }
{}

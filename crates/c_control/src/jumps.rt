//! Jumps (C11 6.8.6).

ghost use Rattle.std.specs.Prelude.{◌≡◌, ◌<◌};
ghost use Rattle.c_tree.specs.SpellsText.{kinds_of};
ghost use Rattle.c_grammar.specs.Readers as readers;
ghost use Rattle.c_grammar.specs.ReadStatements as spec;
ghost use Rattle.c_cursor.specs.Reads.{Reads};
ghost use Rattle.c_cursor.specs.Parts.{ReadsExpressions};

use crate::Control;
use c_cursor::{Cursor, Fault, Mark, take};
use c_tokens::Token;
use c_tree::{Expression, Statement};
use std::alloc::Global;

impl<
    't,
    R: Fn(Global, &[Token], usize, u8, &mut Cursor) -> Result<Expression, Fault>,
    D,
    S,
> Control<'t, R, D, S> {
    /// `return;` or `return expression;` (6.8.6.4).
    pub fn return_statement(&self, place: &mut Cursor) -> Result<Statement, Fault>
        requires expressions { ReadsExpressions self.now.inside.steps (R.pre self.now.inside.read) (R.post self.now.inside.read) }
        requires here { place.old.at < usize.MAX }
        ensures { let kinds = kinds_of self.now.inside.tokens.now in Reads (spec.return_statement kinds (readers.read kinds self.now.inside.steps) place.old) result place.new }
    {
        let at = place.at();
        place.skip();
        let value = self.inside.optional(place)?;
        take(self.inside.tokens, Mark::Semicolon, place)?;
        Ok(Statement::Return { value, at })
    }
}

/// `break;` (6.8.6.3).
pub fn break_statement(tokens: &[Token], place: &mut Cursor) -> Result<Statement, Fault>
    requires here { place.old.at < usize.MAX }
    ensures { Reads (spec.plain_statement (kinds_of tokens.now) (Statement.Break place.old.at) place.old) result place.new }
{
    let at = place.at();
    place.skip();
    take(tokens, Mark::Semicolon, place)?;
    Ok(Statement::Break { at })
}

/// `continue;` (6.8.6.2).
pub fn continue_statement(tokens: &[Token], place: &mut Cursor) -> Result<Statement, Fault>
    requires here { place.old.at < usize.MAX }
    ensures { Reads (spec.plain_statement (kinds_of tokens.now) (Statement.Continue place.old.at) place.old) result place.new }
{
    let at = place.at();
    place.skip();
    take(tokens, Mark::Semicolon, place)?;
    Ok(Statement::Continue { at })
}

//! `switch` (C11 6.8.4.2).

ghost use Rattle.std.specs.Prelude.{◌≡◌, ◌<◌};
ghost use Rattle.c_tree.specs.SpellsText.{kinds_of};
ghost use Rattle.c_grammar.specs.Readers as readers;
ghost use Rattle.c_grammar.specs.ReadStatements as spec;
ghost use Rattle.c_cursor.specs.Reads.{Reads};
ghost use Rattle.c_cursor.specs.Parts.{ReadsExpressions, ReadsPart};

use crate::Control;
use c_cursor::{Cursor, Fault};
use c_tokens::Token;
use c_tree::{Expression, Statement};
use std::alloc::Global;

impl<
    't,
    R: Fn(Global, &[Token], usize, u8, &mut Cursor) -> Result<Expression, Fault>,
    D,
    S: Fn(Global, &[Token], usize, &mut Cursor) -> Result<Statement, Fault>,
> Control<'t, R, D, S> {
    /// `switch (value) body`.
    pub fn switch(&self, place: &mut Cursor) -> Result<Statement, Fault>
        requires expressions { ReadsExpressions self.now.inside.steps (R.pre self.now.inside.read) (R.post self.now.inside.read) }
        requires runs { ReadsPart spec.statement self.now.inside.depth (S.pre self.now.inside.statement) (S.post self.now.inside.statement) }
        requires here { place.old.at < usize.MAX }
        ensures { let kinds = kinds_of self.now.inside.tokens.now in Reads (spec.switch_statement kinds (readers.read kinds self.now.inside.steps) (spec.statement kinds self.now.inside.depth) place.old) result place.new }
    {
        let at = place.at();
        place.skip();
        place.enter()?;
        let value = self.inside.test(place)?;
        let (value, body) = self.inside.body(value, place)?;
        place.leave();
        place.leave();
        Ok(Statement::Switch { value, body, at })
    }
}

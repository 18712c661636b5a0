//! Loops (C11 6.8.5).

ghost use Rattle.std.specs.Prelude.{◌≡◌, ◌<◌};
ghost use Rattle.c_tree.specs.SpellsText.{kinds_of};
ghost use Rattle.c_grammar.specs.Kinds.{begins_type};
ghost use Rattle.c_grammar.specs.Marks.{mark_at};
ghost use Rattle.c_grammar.specs.Readers as readers;
ghost use Rattle.c_grammar.specs.ReadStatements as spec;
ghost use Rattle.c_cursor.specs.Reads.{Reads};
ghost use Rattle.c_cursor.specs.Parts.{ReadsExpressions, ReadsPart};
ghost use Rattle.c_control.specs.Loops.{at_number, for_body};

use crate::Control;
use c_boxes::keeping;
use c_cursor::{Cursor, Fault, Mark, begins_type, mark_at, take};
use c_tokens::Token;
use c_tree::{Declaration, Expression, ForStart, Statement};
use sqlite_items::Boxed;
use std::alloc::Global;

impl<
    't,
    R: Fn(Global, &[Token], usize, u8, &mut Cursor) -> Result<Expression, Fault>,
    D: Fn(Global, &[Token], usize, &mut Cursor) -> Result<Declaration, Fault>,
    S: Fn(Global, &[Token], usize, &mut Cursor) -> Result<Statement, Fault>,
> Control<'t, R, D, S> {
    /// `while (test) body` (6.8.5.1).
    pub fn while_loop(&self, place: &mut Cursor) -> Result<Statement, Fault>
        requires expressions { ReadsExpressions self.now.inside.steps (R.pre self.now.inside.read) (R.post self.now.inside.read) }
        requires runs { ReadsPart spec.statement self.now.inside.depth (S.pre self.now.inside.statement) (S.post self.now.inside.statement) }
        requires here { place.old.at < usize.MAX }
        ensures { let kinds = kinds_of self.now.inside.tokens.now in Reads (spec.while_statement kinds (readers.read kinds self.now.inside.steps) (spec.statement kinds self.now.inside.depth) place.old) result place.new }
    {
        let at = place.at();
        place.skip();
        place.enter()?;
        let test = self.inside.test(place)?;
        let (test, body) = self.inside.body(test, place)?;
        place.leave();
        place.leave();
        Ok(Statement::While { test, body, at })
    }

    /// `do body while (test);` (6.8.5.2).
    pub fn do_loop(&self, place: &mut Cursor) -> Result<Statement, Fault>
        requires expressions { ReadsExpressions self.now.inside.steps (R.pre self.now.inside.read) (R.post self.now.inside.read) }
        requires runs { ReadsPart spec.statement self.now.inside.depth (S.pre self.now.inside.statement) (S.post self.now.inside.statement) }
        requires here { place.old.at < usize.MAX }
        ensures { let kinds = kinds_of self.now.inside.tokens.now in Reads (spec.do_statement kinds (readers.read kinds self.now.inside.steps) (spec.statement kinds self.now.inside.depth) place.old) result place.new }
    {
        let at = place.at();
        place.skip();
        place.enter()?;
        place.enter()?;
        let body = self.inside.boxed(place)?;
        self.do_test(at, body, place)
    }

    /// What stands after the body of a `do`, which is at a token.
    fn do_test(
        &self,
        at: usize,
        body: Boxed<Statement>,
        place: &mut Cursor,
    ) -> Result<Statement, Fault>
        requires expressions { ReadsExpressions self.now.inside.steps (R.pre self.now.inside.read) (R.post self.now.inside.read) }
        ensures { let kinds = kinds_of self.now.inside.tokens.now in Reads (spec.do_after kinds (readers.read kinds self.now.inside.steps) (at_number at) body place.old) result place.new }
    {
        let (body, _) = keeping(body, take(self.inside.tokens, Mark::While, place))?;
        place.leave();
        let parts = keeping(body, self.inside.test(place))?;
        let ((body, test), _) = keeping(parts, take(self.inside.tokens, Mark::Semicolon, place))?;
        place.leave();
        Ok(Statement::Do { body, test, at })
    }

    /// `for (start test; step) body` (6.8.5.3).
    pub fn for_loop(&self, place: &mut Cursor) -> Result<Statement, Fault>
        requires expressions { ReadsExpressions self.now.inside.steps (R.pre self.now.inside.read) (R.post self.now.inside.read) }
        requires declares { ReadsPart spec.declaration self.now.inside.depth (D.pre self.now.inside.declaration) (D.post self.now.inside.declaration) }
        requires runs { ReadsPart spec.statement self.now.inside.depth (S.pre self.now.inside.statement) (S.post self.now.inside.statement) }
        requires here { place.old.at < usize.MAX }
        ensures { let kinds = kinds_of self.now.inside.tokens.now in Reads (spec.for_statement kinds (readers.read kinds self.now.inside.steps) (spec.declaration kinds self.now.inside.depth) (spec.statement kinds self.now.inside.depth) place.old) result place.new }
    {
        let at = place.at();
        place.skip();
        take(self.inside.tokens, Mark::RoundOpens, place)?;
        place.enter()?;
        let first = self.start(place)?;
        self.for_test(at, first, place)
    }

    /// What stands after the first part of a `for`, which is at a token.
    fn for_test(&self, at: usize, first: ForStart, place: &mut Cursor) -> Result<Statement, Fault>
        requires expressions { ReadsExpressions self.now.inside.steps (R.pre self.now.inside.read) (R.post self.now.inside.read) }
        requires runs { ReadsPart spec.statement self.now.inside.depth (S.pre self.now.inside.statement) (S.post self.now.inside.statement) }
        ensures { let kinds = kinds_of self.now.inside.tokens.now in Reads (spec.for_test kinds (readers.read kinds self.now.inside.steps) (spec.statement kinds self.now.inside.depth) (at_number at) first place.old) result place.new }
    {
        let test = self.inside.optional(place);
        let (first, test) = keeping(first, test)?;
        self.for_step(at, first, test, place)
    }

    /// What stands after the test of a `for`, which is at a token.
    fn for_step(
        &self,
        at: usize,
        first: ForStart,
        test: Option<Expression>,
        place: &mut Cursor,
    ) -> Result<Statement, Fault>
        requires expressions { ReadsExpressions self.now.inside.steps (R.pre self.now.inside.read) (R.post self.now.inside.read) }
        requires runs { ReadsPart spec.statement self.now.inside.depth (S.pre self.now.inside.statement) (S.post self.now.inside.statement) }
        ensures { let kinds = kinds_of self.now.inside.tokens.now in Reads (spec.for_step kinds (readers.read kinds self.now.inside.steps) (spec.statement kinds self.now.inside.depth) (at_number at) first test place.old) result place.new }
    {
        let (parts, _) = keeping(
            (first, test),
            take(self.inside.tokens, Mark::Semicolon, place),
        )?;
        let step = self.inside.optional_step(place);
        let ((first, test), step) = keeping(parts, step)?;
        self.for_body(at, first, test, step, place)
    }

    /// What stands after the step of a `for`, which is at a token.
    fn for_body(
        &self,
        at: usize,
        first: ForStart,
        test: Option<Expression>,
        step: Option<Expression>,
        place: &mut Cursor,
    ) -> Result<Statement, Fault>
        requires runs { ReadsPart spec.statement self.now.inside.depth (S.pre self.now.inside.statement) (S.post self.now.inside.statement) }
        ensures { let kinds = kinds_of self.now.inside.tokens.now in Reads (for_body kinds (spec.statement kinds self.now.inside.depth) (at_number at) first test step place.old) result place.new }
    {
        let closed = take(self.inside.tokens, Mark::RoundCloses, place);
        let (parts, _) = keeping((first, test, step), closed)?;
        let ((start, test, step), body) = self.inside.body(parts, place)?;
        place.leave();
        place.leave();
        Ok(Statement::For {
            start,
            test,
            step,
            body,
            at,
        })
    }

    /// The first part of a `for` (6.8.5.3), with its `;`.
    fn start(&self, place: &mut Cursor) -> Result<ForStart, Fault>
        requires expressions { ReadsExpressions self.now.inside.steps (R.pre self.now.inside.read) (R.post self.now.inside.read) }
        requires declares { ReadsPart spec.declaration self.now.inside.depth (D.pre self.now.inside.declaration) (D.post self.now.inside.declaration) }
        ensures { let kinds = kinds_of self.now.inside.tokens.now in Reads (spec.start_by kinds (readers.read kinds self.now.inside.steps) (spec.declaration kinds self.now.inside.depth) place.old (mark_at kinds place.old)) result place.new }
    {
        if let Mark::Semicolon = mark_at(self.inside.tokens, place) {
            place.skip();
            return Ok(ForStart::Nothing);
        }
        self.start_else(place)
    }

    /// A declaration or an expression with its `;`, where a `for` starts.
    fn start_else(&self, place: &mut Cursor) -> Result<ForStart, Fault>
        requires expressions { ReadsExpressions self.now.inside.steps (R.pre self.now.inside.read) (R.post self.now.inside.read) }
        requires declares { ReadsPart spec.declaration self.now.inside.depth (D.pre self.now.inside.declaration) (D.post self.now.inside.declaration) }
        ensures { let kinds = kinds_of self.now.inside.tokens.now in Reads (spec.start_else kinds (readers.read kinds self.now.inside.steps) (spec.declaration kinds self.now.inside.depth) place.old (begins_type kinds place.old)) result place.new }
    {
        if begins_type(self.inside.tokens, place) {
            let declaration = self.inside.declaration(place)?;
            return Ok(ForStart::Declared { declaration });
        }
        self.inside.value_start(place)
    }
}

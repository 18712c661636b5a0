//! What reads the parts of a statement, which the rules take as a parameter, so that each rule is proved by itself.

ghost use Rattle.std.specs.Prelude.{◌≡◌, IfOk};
ghost use Rattle.c_tree.specs.Places.{enter, next};
ghost use Rattle.c_tree.specs.SpellsText.{kinds_of};
ghost use Rattle.c_grammar.specs.Marks.{mark_at};
ghost use Rattle.c_grammar.specs.ReadExpressions.{and_then, Gives};
ghost use Rattle.c_grammar.specs.Readers as readers;
ghost use Rattle.c_grammar.specs.ReadTypes.{where_semicolon};
ghost use Rattle.c_grammar.specs.ReadStatements as spec;
ghost use Rattle.c_cursor.specs.Reads.{Reads, ReadsAs};
ghost use Rattle.c_cursor.specs.Parts.{ReadsExpressions, ReadsPart};

use crate::{Cursor, Fault, Mark, mark_at, take};
use c_tokens::Token;
use c_tree::{Declaration, Expression, ForStart, Statement};
use sqlite_items::Boxed;
use std::alloc::Global;

/// What reads the parts of a statement.
#[derive(Clone, Copy)]
pub struct Inside<'t, R, D, S> {
    pub alloc: Global,
    pub tokens: &'t [Token],
    /// How many steps an expression may take, and how many parts a statement may have.
    pub steps: usize,
    /// How many steps a declaration or a statement inside may take.
    pub depth: usize,
    /// Reads an expression of a level or above in up to this many steps.
    pub read: R,
    /// Reads a declaration in up to this many steps.
    pub declaration: D,
    /// Reads a statement in up to this many steps.
    pub statement: S,
}

impl<'t, R: Fn(Global, &[Token], usize, u8, &mut Cursor) -> Result<Expression, Fault>, D, S> Inside<
    't,
    R,
    D,
    S,
> {
    /// An expression of a level or above.
    pub fn read(&self, least: u8, place: &mut Cursor) -> Result<Expression, Fault>
        requires expressions { ReadsExpressions self.now.steps (R.pre self.now.read) (R.post self.now.read) }
        ensures { Reads (readers.read (kinds_of self.now.tokens.now) self.now.steps least place.old) result place.new }
    {
        (self.read)(self.alloc, self.tokens, self.steps, least, place)
    }

    /// `( expression )`
    pub fn test(&self, place: &mut Cursor) -> Result<Expression, Fault>
        requires expressions { ReadsExpressions self.now.steps (R.pre self.now.read) (R.post self.now.read) }
        ensures { let kinds = kinds_of self.now.tokens.now in Reads (spec.test kinds (readers.read kinds self.now.steps) place.old) result place.new }
    {
        take(self.tokens, Mark::RoundOpens, place)?;
        let value = self.read(0, place)?;
        take(self.tokens, Mark::RoundCloses, place)?;
        Ok(value)
    }

    /// An expression, or nothing before a `;`.
    pub fn optional(&self, place: &mut Cursor) -> Result<Option<Expression>, Fault>
        requires expressions { ReadsExpressions self.now.steps (R.pre self.now.read) (R.post self.now.read) }
        ensures { let kinds = kinds_of self.now.tokens.now in Reads (spec.optional_by (readers.read kinds self.now.steps) place.old (mark_at kinds place.old)) result place.new }
    {
        if let Mark::Semicolon = mark_at(self.tokens, place) {
            return Ok(None);
        }
        let value = self.read(0, place)?;
        Ok(Some(value))
    }

    /// An expression, or nothing before a `)`.
    pub fn optional_step(&self, place: &mut Cursor) -> Result<Option<Expression>, Fault>
        requires expressions { ReadsExpressions self.now.steps (R.pre self.now.read) (R.post self.now.read) }
        ensures { let kinds = kinds_of self.now.tokens.now in Reads (spec.optional_step_by (readers.read kinds self.now.steps) place.old (mark_at kinds place.old)) result place.new }
    {
        if let Mark::RoundCloses = mark_at(self.tokens, place) {
            return Ok(None);
        }
        let value = self.read(0, place)?;
        Ok(Some(value))
    }

    /// `expression;`, where a `for` starts.
    pub fn value_start(&self, place: &mut Cursor) -> Result<ForStart, Fault>
        requires expressions { ReadsExpressions self.now.steps (R.pre self.now.read) (R.post self.now.read) }
        ensures { let kinds = kinds_of self.now.tokens.now in Reads (and_then (readers.read kinds self.now.steps 0 place.old) (λ x q. where_semicolon (mark_at kinds q) (Gives (ForStart.Value x) (next q)))) result place.new }
    {
        let value = self.read(0, place)?;
        take(self.tokens, Mark::Semicolon, place)?;
        Ok(ForStart::Value { value })
    }

    /// `expression;` (6.8.3).
    pub fn value_statement(&self, place: &mut Cursor) -> Result<Statement, Fault>
        requires expressions { ReadsExpressions self.now.steps (R.pre self.now.read) (R.post self.now.read) }
        ensures { let kinds = kinds_of self.now.tokens.now in Reads (spec.value_statement kinds (readers.read kinds self.now.steps) place.old) result place.new }
    {
        let value = self.read(0, place)?;
        let at = place.at();
        take(self.tokens, Mark::Semicolon, place)?;
        Ok(Statement::Value { value, at })
    }
}

impl<'t, R, D: Fn(Global, &[Token], usize, &mut Cursor) -> Result<Declaration, Fault>, S> Inside<
    't,
    R,
    D,
    S,
> {
    /// A declaration inside.
    pub fn declaration(&self, place: &mut Cursor) -> Result<Declaration, Fault>
        requires declares { ReadsPart spec.declaration self.now.depth (D.pre self.now.declaration) (D.post self.now.declaration) }
        ensures { Reads (spec.declaration (kinds_of self.now.tokens.now) self.now.depth place.old) result place.new }
    {
        (self.declaration)(self.alloc, self.tokens, self.depth, place)
    }
}

impl<'t, R, D, S: Fn(Global, &[Token], usize, &mut Cursor) -> Result<Statement, Fault>> Inside<
    't,
    R,
    D,
    S,
> {
    /// A statement inside.
    pub fn statement(&self, place: &mut Cursor) -> Result<Statement, Fault>
        requires runs { ReadsPart spec.statement self.now.depth (S.pre self.now.statement) (S.post self.now.statement) }
        ensures { Reads (spec.statement (kinds_of self.now.tokens.now) self.now.depth place.old) result place.new }
    {
        (self.statement)(self.alloc, self.tokens, self.depth, place)
    }

    /// A statement inside, in a block of its own that stays open, with what was read before it.
    pub fn opened<Before: Drop>(
        &self,
        before: Before,
        place: &mut Cursor,
    ) -> Result<(Before, Statement), Fault>
        requires runs { ReadsPart spec.statement self.now.depth (S.pre self.now.statement) (S.post self.now.statement) }
        ensures reads { ReadsAs (λ made. made.1) (spec.statement (kinds_of self.now.tokens.now) self.now.depth (enter place.old)) result place.new }
        ensures before { IfOk result (λ made. made.0 ≡ before) }
    {
        place.enter()?;
        let body = self.statement(place)?;
        Ok((before, body))
    }

    /// The same, with the statement in a box.
    pub fn body<Before: Drop>(
        &self,
        before: Before,
        place: &mut Cursor,
    ) -> Result<(Before, Boxed<Statement>), Fault>
        requires runs { ReadsPart spec.statement self.now.depth (S.pre self.now.statement) (S.post self.now.statement) }
        ensures reads { ReadsAs (λ made. made.1) (spec.statement (kinds_of self.now.tokens.now) self.now.depth (enter place.old)) result place.new }
        ensures before { IfOk result (λ made. made.0 ≡ before) }
    {
        let (before, body) = self.opened(before, place)?;
        let body = Boxed::new(self.alloc, body)?;
        Ok((before, body))
    }

    /// A statement inside, in a box.
    pub fn boxed(&self, place: &mut Cursor) -> Result<Boxed<Statement>, Fault>
        requires runs { ReadsPart spec.statement self.now.depth (S.pre self.now.statement) (S.post self.now.statement) }
        ensures { Reads (spec.statement (kinds_of self.now.tokens.now) self.now.depth place.old) result place.new }
    {
        let statement = self.statement(place)?;
        Ok(Boxed::new(self.alloc, statement)?)
    }
}

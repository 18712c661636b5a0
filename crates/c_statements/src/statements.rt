//! Labelled statements and blocks (C11 6.8.1, 6.8.2).

ghost use Rattle.std.specs.Prelude.{◌≡◌, ◌<◌, ◌+◌};
ghost use Rattle.c_tree.specs.Places.{next};
ghost use Rattle.c_tree.specs.SpellsText.{kinds_of};
ghost use Rattle.c_grammar.specs.Marks.{mark_at};
ghost use Rattle.c_grammar.specs.Readers as readers;
ghost use Rattle.c_grammar.specs.ReadStatements as spec;
ghost use Rattle.c_cursor.specs.Reads.{Reads};
ghost use Rattle.c_cursor.specs.Parts.{ReadsExpressions, ReadsPart};
ghost use Rattle.c_statements.specs.Labels.{label_statement};

use c_boxes::keeping;
use c_cursor::{Cursor, Fault, Inside, Mark, begins_type, mark_at, refuse, second_mark, take};
use c_grammar::CONDITIONAL;
use c_tokens::Token;
use c_tree::{BlockItem, Declaration, Expression, Statement};
use kv_base::{Bytes, Copied};
use sqlite_items::{Boxed, Items};
use std::alloc::Global;

/// The rules of labelled statements and blocks.
#[derive(Clone, Copy)]
pub struct Statements<'t, R, D, S> {
    pub inside: Inside<'t, R, D, S>,
}

impl<
    't,
    R: Fn(Global, &[Token], usize, u8, &mut Cursor) -> Result<Expression, Fault>,
    D: Fn(Global, &[Token], usize, &mut Cursor) -> Result<Declaration, Fault>,
    S: Fn(Global, &[Token], usize, &mut Cursor) -> Result<Statement, Fault>,
> Statements<'t, R, D, S> {
    /// What stands after a label (6.8.1).
    fn labelled(&self, place: &mut Cursor) -> Result<Boxed<Statement>, Fault>
        requires runs { ReadsPart spec.statement self.now.inside.depth (S.pre self.now.inside.statement) (S.post self.now.inside.statement) }
        ensures { let kinds = kinds_of self.now.inside.tokens.now in Reads (spec.labelled kinds (spec.statement kinds self.now.inside.depth) place.old) result place.new }
    {
        match mark_at(self.inside.tokens, place) {
            Mark::CurlyCloses => {
                let empty = Statement::Empty { at: place.at() };
                Ok(Boxed::new(self.inside.alloc, empty)?)
            }
            _ => self.inside.boxed(place),
        }
    }

    /// `name: body` (6.8.1).
    fn label(&self, text: &Bytes, place: &mut Cursor) -> Result<Statement, Fault>
        requires runs { ReadsPart spec.statement self.now.inside.depth (S.pre self.now.inside.statement) (S.post self.now.inside.statement) }
        requires here { place.old.at + 1 < usize.MAX }
        ensures { let kinds = kinds_of self.now.inside.tokens.now in Reads (label_statement kinds (spec.statement kinds self.now.inside.depth) place.old text.now) result place.new }
    {
        let at = place.at();
        let name = text.copy(self.inside.alloc)?;
        place.skip();
        place.skip();
        let body = self.labelled(place)?;
        Ok(Statement::Label { name, body, at })
    }

    /// What begins with a name.
    pub fn named(&self, text: &Bytes, place: &mut Cursor) -> Result<Statement, Fault>
        requires expressions { ReadsExpressions self.now.inside.steps (R.pre self.now.inside.read) (R.post self.now.inside.read) }
        requires runs { ReadsPart spec.statement self.now.inside.depth (S.pre self.now.inside.statement) (S.post self.now.inside.statement) }
        ensures { let kinds = kinds_of self.now.inside.tokens.now in Reads (spec.name_statement kinds (readers.read kinds self.now.inside.steps) (spec.statement kinds self.now.inside.depth) place.old text.now (mark_at kinds (next place.old))) result place.new }
    {
        match second_mark(self.inside.tokens, place) {
            Mark::Colon => self.label(text, place),
            _ => self.inside.value_statement(place),
        }
    }

    /// `case value: body` (6.8.1).
    pub fn case(&self, place: &mut Cursor) -> Result<Statement, Fault>
        requires expressions { ReadsExpressions self.now.inside.steps (R.pre self.now.inside.read) (R.post self.now.inside.read) }
        requires runs { ReadsPart spec.statement self.now.inside.depth (S.pre self.now.inside.statement) (S.post self.now.inside.statement) }
        requires here { place.old.at < usize.MAX }
        ensures { let kinds = kinds_of self.now.inside.tokens.now in Reads (spec.case_statement kinds (readers.read kinds self.now.inside.steps) (spec.statement kinds self.now.inside.depth) place.old) result place.new }
    {
        let at = place.at();
        place.skip();
        let value = self.inside.read(CONDITIONAL, place)?;
        let (value, _) = keeping(value, take(self.inside.tokens, Mark::Colon, place))?;
        let (value, body) = keeping(value, self.labelled(place))?;
        Ok(Statement::Case { value, body, at })
    }

    /// `default: body` (6.8.1).
    pub fn default(&self, place: &mut Cursor) -> Result<Statement, Fault>
        requires runs { ReadsPart spec.statement self.now.inside.depth (S.pre self.now.inside.statement) (S.post self.now.inside.statement) }
        requires here { place.old.at < usize.MAX }
        ensures { let kinds = kinds_of self.now.inside.tokens.now in Reads (spec.default_statement kinds (spec.statement kinds self.now.inside.depth) place.old) result place.new }
    {
        let at = place.at();
        place.skip();
        take(self.inside.tokens, Mark::Colon, place)?;
        let body = self.labelled(place)?;
        Ok(Statement::Default { body, at })
    }

    /// Whether a declaration begins here, in a block. A name before `:` is a label, also where it is a typedef name.
    fn declares(&self, place: &Cursor) -> bool
        ensures { result ≡ spec.declares (kinds_of self.now.inside.tokens.now) place.now }
    {
        let Mark::Name = mark_at(self.inside.tokens, place) else {
            return begins_type(self.inside.tokens, place);
        };
        match second_mark(self.inside.tokens, place) {
            Mark::Colon => false,
            _ => begins_type(self.inside.tokens, place),
        }
    }

    /// An item of a block (6.8.2).
    fn item(&self, place: &mut Cursor) -> Result<BlockItem, Fault>
        requires declares { ReadsPart spec.declaration self.now.inside.depth (D.pre self.now.inside.declaration) (D.post self.now.inside.declaration) }
        requires runs { ReadsPart spec.statement self.now.inside.depth (S.pre self.now.inside.statement) (S.post self.now.inside.statement) }
        ensures { let kinds = kinds_of self.now.inside.tokens.now in Reads (spec.item kinds (spec.declaration kinds self.now.inside.depth) (spec.statement kinds self.now.inside.depth) place.old) result place.new }
    {
        if self.declares(place) {
            let declaration = self.inside.declaration(place)?;
            return Ok(BlockItem::Declared { declaration });
        }
        let statement = self.inside.statement(place)?;
        Ok(BlockItem::Run { statement })
    }

    /// The items of a block, to its `}`.
    pub fn items(&self, place: &mut Cursor) -> Result<Items<BlockItem>, Fault>
        requires declares { ReadsPart spec.declaration self.now.inside.depth (D.pre self.now.inside.declaration) (D.post self.now.inside.declaration) }
        requires runs { ReadsPart spec.statement self.now.inside.depth (S.pre self.now.inside.statement) (S.post self.now.inside.statement) }
        ensures { let kinds = kinds_of self.now.inside.tokens.now in Reads (spec.block kinds (spec.declaration kinds self.now.inside.depth) (spec.statement kinds self.now.inside.depth) self.now.inside.steps place.old) result place.new }
    {
        let mut found = Items::new(self.inside.alloc);
        for _turn in 0..self.inside.steps {
            if let Mark::CurlyCloses = mark_at(self.inside.tokens, place) {
                return Ok(found);
            }
            let item = self.item(place)?;
            found.push(item)?;
        }
        Err(refuse(place))
    }

    /// `{ items }` (6.8.2).
    pub fn block(&self, place: &mut Cursor) -> Result<Statement, Fault>
        requires declares { ReadsPart spec.declaration self.now.inside.depth (D.pre self.now.inside.declaration) (D.post self.now.inside.declaration) }
        requires runs { ReadsPart spec.statement self.now.inside.depth (S.pre self.now.inside.statement) (S.post self.now.inside.statement) }
        requires here { place.old.at < usize.MAX }
        ensures { let kinds = kinds_of self.now.inside.tokens.now in Reads (spec.block_statement kinds (spec.block kinds (spec.declaration kinds self.now.inside.depth) (spec.statement kinds self.now.inside.depth) self.now.inside.steps) place.old) result place.new }
    {
        let at = place.at();
        place.skip();
        place.enter()?;
        let items = self.items(place)?;
        take(self.inside.tokens, Mark::CurlyCloses, place)?;
        place.leave();
        Ok(Statement::Block { items, at })
    }
}

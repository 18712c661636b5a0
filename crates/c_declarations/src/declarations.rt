//! Declarations and initialisers (C11 6.7, 6.7.9).

ghost use Rattle.std.specs.Prelude.{◌≡◌, ◌≤◌, ◌<◌, ◌-◌};
ghost use Rattle.c_tree.specs.SpellsText.{kinds_of};
ghost use Rattle.c_grammar.specs.Marks.{mark_at};
ghost use Rattle.c_grammar.specs.Readers as readers;
ghost use Rattle.c_grammar.specs.ReadTypes.{listed, separated, separated_after};
ghost use Rattle.c_grammar.specs.ReadStatements as spec;
ghost use Rattle.c_cursor.specs.Reads.{Reads, ReadsAs, specified_of, titled_of};
ghost use Rattle.c_cursor.specs.Parts.{ReadsExpressions, ReadsPartAs};
ghost use Rattle.c_declarations.specs.Values.{initial_value, initialised, plain_declared};

use c_cursor::{Cursor, Fault, Mark, Specified, Titled, mark_at, refuse, take};
use c_grammar::ASSIGNMENT;
use c_tokens::Token;
use c_tree::{Declaration, Declared, DeclaredNames, Expression, Initialiser};
use sqlite_items::Items;
use std::alloc::Global;

/// The rules of declarations, with what reads the expressions, the specifiers and the declarators inside.
#[derive(Clone, Copy)]
pub struct Declarations<'t, R, S, D> {
    pub alloc: Global,
    pub tokens: &'t [Token],
    /// How many steps may still be taken.
    pub depth: usize,
    /// Reads an expression of a level or above in up to this many steps.
    pub read: R,
    /// Reads specifiers in up to this many steps.
    pub specifiers: S,
    /// Reads a declarator with a name in up to this many steps.
    pub declarator: D,
}

/// A declarator without an initialiser.
fn plain(defines: bool, titled: Titled, place: &mut Cursor) -> Result<Declared, Fault>
    ensures { Reads (plain_declared defines (titled_of titled) place.old) result place.new }
{
    let declarator = titled.inner;
    place.declare(titled.name, defines)?;
    Ok(Declared::Plain { declarator })
}

impl<
    't,
    R: Fn(Global, &[Token], usize, u8, &mut Cursor) -> Result<Expression, Fault>,
    S,
    D,
> Declarations<'t, R, S, D> {
    /// An assignment expression, in up to this many steps.
    fn value(&self, depth: usize, place: &mut Cursor) -> Result<Expression, Fault>
        requires expressions { ReadsExpressions self.now.depth (R.pre self.now.read) (R.post self.now.read) }
        requires within { depth ≤ self.now.depth }
        ensures { Reads (readers.read (kinds_of self.now.tokens.now) depth 1 place.old) result place.new }
    {
        (self.read)(self.alloc, self.tokens, depth, ASSIGNMENT, place)
    }

    /// An initialiser that is an expression.
    fn initial_value(&self, depth: usize, place: &mut Cursor) -> Result<Initialiser, Fault>
        requires expressions { ReadsExpressions self.now.depth (R.pre self.now.read) (R.post self.now.read) }
        requires within { depth ≤ self.now.depth }
        ensures { Reads (initial_value (kinds_of self.now.tokens.now) depth place.old) result place.new }
    {
        let at = place.at();
        let value = self.value(depth, place)?;
        Ok(Initialiser::Value { value, at })
    }

    /// An initialiser in an initialiser or a declaration, in up to this many steps.
    #[cycle(initialiser)]
    fn part(&self, depth: usize, place: &mut Cursor) -> Result<Initialiser, Fault>
        requires expressions { ReadsExpressions self.now.depth (R.pre self.now.read) (R.post self.now.read) }
        requires within { depth ≤ self.now.depth }
        ensures { Reads (spec.initialiser (kinds_of self.now.tokens.now) depth place.old) result place.new }
    {
        let height = place.descend()?;
        let whole = self.initialiser(depth, place)?;
        Ok(place.ascend(height, whole)?)
    }

    /// An initialiser (6.7.9), in up to this many steps.
    #[cycle(initialiser)]
    fn initialiser(&self, depth: usize, place: &mut Cursor) -> Result<Initialiser, Fault>
        requires expressions { ReadsExpressions self.now.depth (R.pre self.now.read) (R.post self.now.read) }
        requires within { depth ≤ self.now.depth }
        ensures { Reads (spec.initialiser (kinds_of self.now.tokens.now) depth place.old) result place.new }
    {
        if depth == 0 {
            return Err(refuse(place));
        }
        self.deeper_initialiser(depth, place)
    }

    /// An initialiser in at least one step.
    #[cycle(initialiser)]
    fn deeper_initialiser(&self, depth: usize, place: &mut Cursor) -> Result<Initialiser, Fault>
        requires expressions { ReadsExpressions self.now.depth (R.pre self.now.read) (R.post self.now.read) }
        requires within { depth ≤ self.now.depth }
        requires deeper { 0 < depth }
        ensures { let kinds = kinds_of self.now.tokens.now in Reads (spec.initialiser_by kinds (readers.read kinds depth) (listed kinds (spec.initialiser kinds (depth - 1)) (depth - 1)) place.old (mark_at kinds place.old)) result place.new }
    {
        match mark_at(self.tokens, place) {
            Mark::CurlyOpens => {
                let at = place.at();
                place.skip();
                let parts = self.initialisers(depth - 1, place)?;
                take(self.tokens, Mark::CurlyCloses, place)?;
                Ok(Initialiser::Braces { parts, at })
            }
            _ => self.initial_value(depth, place),
        }
    }

    /// Initialisers with a comma between each two; a comma may end them before a `}`.
    #[cycle(initialiser)]
    fn initialisers(&self, depth: usize, place: &mut Cursor) -> Result<Items<Initialiser>, Fault>
        requires expressions { ReadsExpressions self.now.depth (R.pre self.now.read) (R.post self.now.read) }
        requires within { depth ≤ self.now.depth }
        ensures { let kinds = kinds_of self.now.tokens.now in Reads (listed kinds (spec.initialiser kinds depth) depth place.old) result place.new }
    {
        let mut found = Items::new(self.alloc);
        for _turn in 0..depth {
            let part = self.part(depth, place)?;
            found.push(part)?;
            let Mark::Comma = mark_at(self.tokens, place) else {
                return Ok(found);
            };
            place.skip();
            if let Mark::CurlyCloses = mark_at(self.tokens, place) {
                return Ok(found);
            }
        }
        Err(refuse(place))
    }

    /// What stands after a declarator, whose name is a typedef name or not.
    pub fn declared_after(
        &self,
        defines: bool,
        titled: Titled,
        place: &mut Cursor,
    ) -> Result<Declared, Fault>
        requires expressions { ReadsExpressions self.now.depth (R.pre self.now.read) (R.post self.now.read) }
        ensures { let kinds = kinds_of self.now.tokens.now in Reads (spec.declared_after kinds (spec.initialiser kinds self.now.depth) defines (titled_of titled) place.old) result place.new }
    {
        match mark_at(self.tokens, place) {
            Mark::Equals => self.initialised(defines, titled, place),
            _ => plain(defines, titled, place),
        }
    }

    /// `= initialiser` after a declarator, from the `=` on.
    fn initialised(
        &self,
        defines: bool,
        titled: Titled,
        place: &mut Cursor,
    ) -> Result<Declared, Fault>
        requires expressions { ReadsExpressions self.now.depth (R.pre self.now.read) (R.post self.now.read) }
        requires here { place.old.at < usize.MAX }
        ensures { Reads (initialised (kinds_of self.now.tokens.now) self.now.depth defines (titled_of titled) place.old) result place.new }
    {
        let declarator = titled.inner;
        let at = place.at();
        place.skip();
        place.declare(titled.name, defines)?;
        let initialiser = self.part(self.depth, place)?;
        Ok(Declared::Initialised {
            declarator,
            initialiser,
            at,
        })
    }
}

impl<
    't,
    R: Fn(Global, &[Token], usize, u8, &mut Cursor) -> Result<Expression, Fault>,
    S,
    D: Fn(Global, &[Token], usize, &mut Cursor) -> Result<Titled, Fault>,
> Declarations<'t, R, S, D> {
    /// A declarator with a name, and what has no meaning after it.
    fn declarator(&self, place: &mut Cursor) -> Result<Titled, Fault>
        requires declares { ReadsPartAs titled_of readers.declarator self.now.depth (D.pre self.now.declarator) (D.post self.now.declarator) }
        ensures { ReadsAs titled_of (readers.declarator (kinds_of self.now.tokens.now) self.now.depth place.old) result place.new }
    {
        (self.declarator)(self.alloc, self.tokens, self.depth, place)
    }

    /// A declarator with its initialiser, if it has one.
    fn declared(&self, defines: bool, place: &mut Cursor) -> Result<Declared, Fault>
        requires expressions { ReadsExpressions self.now.depth (R.pre self.now.read) (R.post self.now.read) }
        requires declares { ReadsPartAs titled_of readers.declarator self.now.depth (D.pre self.now.declarator) (D.post self.now.declarator) }
        ensures { let kinds = kinds_of self.now.tokens.now in Reads (spec.declared kinds (readers.declarator kinds self.now.depth) (spec.initialiser kinds self.now.depth) defines place.old) result place.new }
    {
        let titled = self.declarator(place)?;
        self.declared_after(defines, titled, place)
    }

    /// The first declarator, and up to this many after it.
    pub fn further_names(
        &self,
        defines: bool,
        count: usize,
        first: Declared,
        place: &mut Cursor,
    ) -> Result<DeclaredNames, Fault>
        requires expressions { ReadsExpressions self.now.depth (R.pre self.now.read) (R.post self.now.read) }
        requires declares { ReadsPartAs titled_of readers.declarator self.now.depth (D.pre self.now.declarator) (D.post self.now.declarator) }
        ensures { let kinds = kinds_of self.now.tokens.now in Reads (separated_after (separated kinds (spec.declared kinds (readers.declarator kinds self.now.depth) (spec.initialiser kinds self.now.depth) defines) count) first place.old (mark_at kinds place.old)) result place.new }
    {
        let mut found = DeclaredNames::new(self.alloc);
        found.push(first)?;
        for _turn in 0..count {
            let Mark::Comma = mark_at(self.tokens, place) else {
                return Ok(found);
            };
            place.skip();
            let next = self.declared(defines, place)?;
            found.push(next)?;
        }
        match mark_at(self.tokens, place) {
            Mark::Comma => Err(refuse(place)),
            _ => Ok(found),
        }
    }

    /// The declarators of a declaration.
    fn names(&self, defines: bool, place: &mut Cursor) -> Result<DeclaredNames, Fault>
        requires expressions { ReadsExpressions self.now.depth (R.pre self.now.read) (R.post self.now.read) }
        requires declares { ReadsPartAs titled_of readers.declarator self.now.depth (D.pre self.now.declarator) (D.post self.now.declarator) }
        ensures { Reads (spec.names_with (kinds_of self.now.tokens.now) self.now.depth defines place.old) result place.new }
    {
        if self.depth == 0 {
            return Err(refuse(place));
        }
        let first = self.declared(defines, place)?;
        self.further_names(defines, self.depth - 1, first, place)
    }

    /// What stands after the specifiers.
    fn declaration_after(
        &self,
        specified: Specified,
        place: &mut Cursor,
    ) -> Result<Declaration, Fault>
        requires expressions { ReadsExpressions self.now.depth (R.pre self.now.read) (R.post self.now.read) }
        requires declares { ReadsPartAs titled_of readers.declarator self.now.depth (D.pre self.now.declarator) (D.post self.now.declarator) }
        ensures { let kinds = kinds_of self.now.tokens.now in Reads (spec.declaration_after kinds (spec.names_with kinds self.now.depth) (specified_of specified) place.old) result place.new }
    {
        let specifiers = specified.list;
        if let Mark::Semicolon = mark_at(self.tokens, place) {
            let at = place.at();
            place.skip();
            return Ok(Declaration {
                specifiers,
                names: DeclaredNames::new(self.alloc),
                at,
            });
        }
        let names = self.names(specified.defines, place)?;
        let at = place.at();
        take(self.tokens, Mark::Semicolon, place)?;
        Ok(Declaration {
            specifiers,
            names,
            at,
        })
    }
}

impl<
    't,
    R,
    S: Fn(Global, &[Token], usize, &mut Cursor) -> Result<Specified, Fault>,
    D,
> Declarations<'t, R, S, D> {
    /// Specifiers.
    fn specifiers(&self, place: &mut Cursor) -> Result<Specified, Fault>
        requires specifies { ReadsPartAs specified_of readers.specifiers self.now.depth (S.pre self.now.specifiers) (S.post self.now.specifiers) }
        ensures { ReadsAs specified_of (readers.specifiers (kinds_of self.now.tokens.now) self.now.depth place.old) result place.new }
    {
        (self.specifiers)(self.alloc, self.tokens, self.depth, place)
    }
}

impl<
    't,
    R: Fn(Global, &[Token], usize, u8, &mut Cursor) -> Result<Expression, Fault>,
    S: Fn(Global, &[Token], usize, &mut Cursor) -> Result<Specified, Fault>,
    D: Fn(Global, &[Token], usize, &mut Cursor) -> Result<Titled, Fault>,
> Declarations<'t, R, S, D> {
    /// A declaration (6.7).
    pub fn declaration(&self, place: &mut Cursor) -> Result<Declaration, Fault>
        requires expressions { ReadsExpressions self.now.depth (R.pre self.now.read) (R.post self.now.read) }
        requires specifies { ReadsPartAs specified_of readers.specifiers self.now.depth (S.pre self.now.specifiers) (S.post self.now.specifiers) }
        requires declares { ReadsPartAs titled_of readers.declarator self.now.depth (D.pre self.now.declarator) (D.post self.now.declarator) }
        ensures { Reads (spec.declaration (kinds_of self.now.tokens.now) self.now.depth place.old) result place.new }
    {
        let specified = self.specifiers(place)?;
        self.declaration_after(specified, place)
    }
}

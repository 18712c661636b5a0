//! Type names (C11 6.7.7).

ghost use Rattle.std.specs.Prelude.{◌≡◌, ◌<◌};
ghost use Rattle.c_tree.specs.SpellsText.{kinds_of};
ghost use Rattle.c_grammar.specs.ReadTypes as spec;
ghost use Rattle.c_grammar.specs.Readers as readers;
ghost use Rattle.c_cursor.specs.Reads.{Reads, ReadsAs, specified_of};
ghost use Rattle.c_cursor.specs.Parts.{ReadsExpressions, ReadsPartAs};
ghost use Rattle.c_declarators.specs.TypeNames.{array_read};

use crate::sizes::{array_of, closed_size};
use c_boxes::keeping;
use c_cursor::{Cursor, Fault, Mark, Specified, mark_at, may_qualify_type, qualifiers, refuse};
use c_tokens::Token;
use c_tree::{Declarator, Expression, TypeName};
use sqlite_items::Boxed;
use std::alloc::Global;

/// The rules of type names, with what reads the expressions and the specifiers inside.
#[derive(Clone, Copy)]
pub struct TypeNames<'t, R, S> {
    pub alloc: Global,
    pub tokens: &'t [Token],
    /// How many steps may still be taken.
    pub depth: usize,
    /// Reads an expression of a level or above in at most a given number of steps.
    pub read: R,
    /// Reads specifiers in at most a given number of steps.
    pub specifiers: S,
}

impl<'t, R: Fn(Global, &[Token], usize, u8, &mut Cursor) -> Result<Expression, Fault>, S> TypeNames<
    't,
    R,
    S,
> {
    /// `inner[size]`, from the `[` on.
    fn array(&self, inner: Declarator, place: &mut Cursor) -> Result<Declarator, Fault>
        requires expressions { ReadsExpressions self.now.depth (R.pre self.now.read) (R.post self.now.read) }
        requires here { place.old.at < usize.MAX }
        ensures { Reads (array_read (kinds_of self.now.tokens.now) self.now.depth inner place.old) result place.new }
    {
        let at = place.at();
        place.skip();
        let size = closed_size(self.alloc, self.tokens, self.depth, &self.read, place);
        let (inner, size) = keeping(inner, size)?;
        Ok(array_of(self.alloc, inner, size, at)?)
    }

    /// The same, as one node more.
    fn grown_array(&self, inner: Declarator, place: &mut Cursor) -> Result<Declarator, Fault>
        requires expressions { ReadsExpressions self.now.depth (R.pre self.now.read) (R.post self.now.read) }
        requires here { place.old.at < usize.MAX }
        ensures { Reads (array_read (kinds_of self.now.tokens.now) self.now.depth inner place.old) result place.new }
    {
        let whole = self.array(inner, place)?;
        Ok(place.grow(whole)?)
    }

    /// The arrays of a type name, as many as there are.
    fn arrays(
        &self,
        limit: usize,
        inner: Declarator,
        place: &mut Cursor,
    ) -> Result<Declarator, Fault>
        requires expressions { ReadsExpressions self.now.depth (R.pre self.now.read) (R.post self.now.read) }
        ensures { let kinds = kinds_of self.now.tokens.now in Reads (spec.arrays kinds (readers.read kinds self.now.depth) limit inner place.old) result place.new }
    {
        let mut whole = inner;
        for _turn in 0..limit {
            match mark_at(self.tokens, place) {
                Mark::SquareOpens => whole = self.grown_array(whole, place)?,
                _ => return Ok(whole),
            }
        }
        Err(refuse(place))
    }

    /// What stands for a declarator after a `*` of a type name.
    #[cycle(unnamed)]
    fn pointed(&self, limit: usize, place: &mut Cursor) -> Result<Declarator, Fault>
        requires expressions { ReadsExpressions self.now.depth (R.pre self.now.read) (R.post self.now.read) }
        ensures { let kinds = kinds_of self.now.tokens.now in Reads (spec.unnamed kinds (readers.read kinds self.now.depth) limit place.old) result place.new }
    {
        let height = place.descend()?;
        let whole = self.unnamed(limit, place)?;
        Ok(place.ascend(height, whole)?)
    }

    /// What stands for a declarator in a type name.
    #[cycle(unnamed)]
    fn unnamed(&self, limit: usize, place: &mut Cursor) -> Result<Declarator, Fault>
        requires expressions { ReadsExpressions self.now.depth (R.pre self.now.read) (R.post self.now.read) }
        ensures { let kinds = kinds_of self.now.tokens.now in Reads (spec.unnamed kinds (readers.read kinds self.now.depth) limit place.old) result place.new }
    {
        if limit == 0 {
            return Err(refuse(place));
        }
        let at = place.at();
        let Mark::Star = mark_at(self.tokens, place) else {
            return self.arrays(limit, Declarator::Unnamed { at }, place);
        };
        place.skip();
        let qualifiers = qualifiers(self.alloc, self.tokens, limit - 1, place)?;
        if !may_qualify_type(qualifiers.as_slice()) {
            return Err(refuse(place));
        }
        let inner = Boxed::new(self.alloc, self.pointed(limit - 1, place)?)?;
        Ok(Declarator::Pointer {
            qualifiers,
            inner,
            at,
        })
    }
}

impl<'t, R, S: Fn(Global, &[Token], usize, &mut Cursor) -> Result<Specified, Fault>> TypeNames<
    't,
    R,
    S,
> {
    /// Specifiers.
    fn specifiers(&self, place: &mut Cursor) -> Result<Specified, Fault>
        requires specifies { ReadsPartAs specified_of readers.specifiers self.now.depth (S.pre self.now.specifiers) (S.post self.now.specifiers) }
        ensures { ReadsAs specified_of (readers.specifiers (kinds_of self.now.tokens.now) self.now.depth place.old) result place.new }
    {
        (self.specifiers)(self.alloc, self.tokens, self.depth, place)
    }
}

impl<
    't,
    R: Fn(Global, &[Token], usize, u8, &mut Cursor) -> Result<Expression, Fault>,
    S: Fn(Global, &[Token], usize, &mut Cursor) -> Result<Specified, Fault>,
> TypeNames<'t, R, S> {
    /// A type name.
    pub fn type_name(&self, place: &mut Cursor) -> Result<TypeName, Fault>
        requires expressions { ReadsExpressions self.now.depth (R.pre self.now.read) (R.post self.now.read) }
        requires specifies { ReadsPartAs specified_of readers.specifiers self.now.depth (S.pre self.now.specifiers) (S.post self.now.specifiers) }
        ensures { Reads (readers.types (kinds_of self.now.tokens.now) self.now.depth place.old) result place.new }
    {
        let specified = self.specifiers(place)?;
        let (specified, declarator) = keeping(specified, self.unnamed(self.depth, place))?;
        Ok(TypeName {
            specifiers: specified.list,
            declarator,
        })
    }
}

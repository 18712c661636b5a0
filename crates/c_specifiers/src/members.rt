//! The members of structs (C11 6.7.2.1).

ghost use Rattle.std.specs.Prelude.{◌≡◌, ◌<◌};
ghost use Rattle.c_tree.specs.SpellsText.{kinds_of};
ghost use Rattle.c_grammar.specs.Marks.{mark_at};
ghost use Rattle.c_grammar.specs.ReadTypes as spec;
ghost use Rattle.c_grammar.specs.Readers as readers;
ghost use Rattle.c_cursor.specs.Reads.{Reads, ReadsAs, specified_of, titled_of};
ghost use Rattle.c_cursor.specs.Parts.{ReadsExpressions, ReadsPartAs, lines_at};
ghost use Rattle.c_specifiers.specs.Members.{member_at, unnamed_bit_field, bit_field, named_member, members_at, member_line};

use c_boxes::keeping;
use c_cursor::{Cursor, Fault, Mark, Specified, Titled, mark_at, refuse, take};
use c_grammar::CONDITIONAL;
use c_tokens::Token;
use c_tree::{Expression, Member, MemberLine};
use sqlite_items::Items;
use std::alloc::Global;

/// The rules of members, with what reads the expressions, the specifiers and the declarators inside.
#[derive(Clone, Copy)]
pub struct Members<'t, R, S, D> {
    pub alloc: Global,
    pub tokens: &'t [Token],
    /// How many steps may still be taken.
    pub depth: usize,
    /// Reads an expression of a level or above in at most a given number of steps.
    pub read: R,
    /// Reads specifiers in at most a given number of steps.
    pub specifiers: S,
    /// Reads a declarator with a name in at most a given number of steps.
    pub declarator: D,
}

impl<
    't,
    R: Fn(Global, &[Token], usize, u8, &mut Cursor) -> Result<Expression, Fault>,
    S,
    D,
> Members<'t, R, S, D> {
    /// A constant expression.
    fn size(&self, place: &mut Cursor) -> Result<Expression, Fault>
        requires expressions { ReadsExpressions self.now.depth (R.pre self.now.read) (R.post self.now.read) }
        ensures { Reads (readers.read (kinds_of self.now.tokens.now) self.now.depth 2 place.old) result place.new }
    {
        (self.read)(self.alloc, self.tokens, self.depth, CONDITIONAL, place)
    }

    /// `: width`, from the `:` on.
    fn unnamed_bit_field(&self, place: &mut Cursor) -> Result<Member, Fault>
        requires expressions { ReadsExpressions self.now.depth (R.pre self.now.read) (R.post self.now.read) }
        requires here { place.old.at < usize.MAX }
        ensures { Reads (unnamed_bit_field (kinds_of self.now.tokens.now) self.now.depth place.old) result place.new }
    {
        let at = place.at();
        place.skip();
        let width = self.size(place)?;
        Ok(Member::UnnamedBitField { width, at })
    }

    /// `: width` after a declarator, from the `:` on.
    fn bit_field(&self, titled: Titled, place: &mut Cursor) -> Result<Member, Fault>
        requires expressions { ReadsExpressions self.now.depth (R.pre self.now.read) (R.post self.now.read) }
        requires here { place.old.at < usize.MAX }
        ensures { Reads (bit_field (kinds_of self.now.tokens.now) self.now.depth (titled_of titled) place.old) result place.new }
    {
        let Titled { inner, .. } = titled;
        let at = place.at();
        place.skip();
        let (inner, width) = keeping(inner, self.size(place))?;
        Ok(Member::BitField {
            declarator: inner,
            width,
            at,
        })
    }

    /// A member whose declarator was read.
    fn member_after(&self, titled: Titled, place: &mut Cursor) -> Result<Member, Fault>
        requires expressions { ReadsExpressions self.now.depth (R.pre self.now.read) (R.post self.now.read) }
        ensures { let kinds = kinds_of self.now.tokens.now in Reads (spec.member_after (readers.read kinds self.now.depth) (titled_of titled) place.old (mark_at kinds place.old)) result place.new }
    {
        match mark_at(self.tokens, place) {
            Mark::Colon => self.bit_field(titled, place),
            _ => {
                let Titled { inner, .. } = titled;
                Ok(Member::Plain { declarator: inner })
            }
        }
    }
}

impl<'t, R, S, D: Fn(Global, &[Token], usize, &mut Cursor) -> Result<Titled, Fault>> Members<
    't,
    R,
    S,
    D,
> {
    /// A declarator with a name, and what has no meaning after it.
    fn declarator(&self, place: &mut Cursor) -> Result<Titled, Fault>
        requires declares { ReadsPartAs titled_of readers.declarator self.now.depth (D.pre self.now.declarator) (D.post self.now.declarator) }
        ensures { ReadsAs titled_of (readers.declarator (kinds_of self.now.tokens.now) self.now.depth place.old) result place.new }
    {
        (self.declarator)(self.alloc, self.tokens, self.depth, place)
    }
}

impl<'t, R, S: Fn(Global, &[Token], usize, &mut Cursor) -> Result<Specified, Fault>, D> Members<
    't,
    R,
    S,
    D,
> {
    /// Specifiers.
    fn specifiers(&self, place: &mut Cursor) -> Result<Specified, Fault>
        requires specifies { ReadsPartAs specified_of readers.specifiers self.now.depth (S.pre self.now.specifiers) (S.post self.now.specifiers) }
        ensures { ReadsAs specified_of (readers.specifiers (kinds_of self.now.tokens.now) self.now.depth place.old) result place.new }
    {
        (self.specifiers)(self.alloc, self.tokens, self.depth, place)
    }
}

impl<
    't,
    R: Fn(Global, &[Token], usize, u8, &mut Cursor) -> Result<Expression, Fault>,
    S,
    D: Fn(Global, &[Token], usize, &mut Cursor) -> Result<Titled, Fault>,
> Members<'t, R, S, D> {
    /// A member that begins with its declarator.
    fn named_member(&self, place: &mut Cursor) -> Result<Member, Fault>
        requires expressions { ReadsExpressions self.now.depth (R.pre self.now.read) (R.post self.now.read) }
        requires declares { ReadsPartAs titled_of readers.declarator self.now.depth (D.pre self.now.declarator) (D.post self.now.declarator) }
        ensures { Reads (named_member (kinds_of self.now.tokens.now) self.now.depth place.old) result place.new }
    {
        let titled = self.declarator(place)?;
        self.member_after(titled, place)
    }

    /// A member (6.7.2.1).
    fn member(&self, place: &mut Cursor) -> Result<Member, Fault>
        requires expressions { ReadsExpressions self.now.depth (R.pre self.now.read) (R.post self.now.read) }
        requires declares { ReadsPartAs titled_of readers.declarator self.now.depth (D.pre self.now.declarator) (D.post self.now.declarator) }
        ensures { Reads (member_at (kinds_of self.now.tokens.now) self.now.depth place.old) result place.new }
    {
        match mark_at(self.tokens, place) {
            Mark::Colon => self.unnamed_bit_field(place),
            _ => self.named_member(place),
        }
    }

    /// Members with a comma between each two.
    fn members(&self, place: &mut Cursor) -> Result<Items<Member>, Fault>
        requires expressions { ReadsExpressions self.now.depth (R.pre self.now.read) (R.post self.now.read) }
        requires declares { ReadsPartAs titled_of readers.declarator self.now.depth (D.pre self.now.declarator) (D.post self.now.declarator) }
        ensures { Reads (members_at (kinds_of self.now.tokens.now) self.now.depth place.old) result place.new }
    {
        let mut found = Items::new(self.alloc);
        for _turn in 0..self.depth {
            let member = self.member(place)?;
            found.push(member)?;
            let Mark::Comma = mark_at(self.tokens, place) else {
                return Ok(found);
            };
            place.skip();
        }
        Err(refuse(place))
    }
}

impl<
    't,
    R: Fn(Global, &[Token], usize, u8, &mut Cursor) -> Result<Expression, Fault>,
    S: Fn(Global, &[Token], usize, &mut Cursor) -> Result<Specified, Fault>,
    D: Fn(Global, &[Token], usize, &mut Cursor) -> Result<Titled, Fault>,
> Members<'t, R, S, D> {
    /// A declaration in a struct, with the `;` after it.
    #[tactic(auto, using(c_cursor::proofs::Skipped::semicolon_taken, c_cursor::proofs::Skipped::semicolon_missing))]
    fn line(&self, place: &mut Cursor) -> Result<MemberLine, Fault>
        requires expressions { ReadsExpressions self.now.depth (R.pre self.now.read) (R.post self.now.read) }
        requires specifies { ReadsPartAs specified_of readers.specifiers self.now.depth (S.pre self.now.specifiers) (S.post self.now.specifiers) }
        requires declares { ReadsPartAs titled_of readers.declarator self.now.depth (D.pre self.now.declarator) (D.post self.now.declarator) }
        ensures { Reads (member_line (kinds_of self.now.tokens.now) self.now.depth place.old) result place.new }
    {
        let specified = self.specifiers(place)?;
        let parts = keeping(specified.list, self.members(place))?;
        let (parts, _) = keeping(parts, take(self.tokens, Mark::Semicolon, place))?;
        let (specifiers, members) = parts;
        Ok(MemberLine {
            specifiers,
            members,
        })
    }

    /// The declarations in a struct, up to its `}`.
    pub fn lines(&self, place: &mut Cursor) -> Result<Items<MemberLine>, Fault>
        requires expressions { ReadsExpressions self.now.depth (R.pre self.now.read) (R.post self.now.read) }
        requires specifies { ReadsPartAs specified_of readers.specifiers self.now.depth (S.pre self.now.specifiers) (S.post self.now.specifiers) }
        requires declares { ReadsPartAs titled_of readers.declarator self.now.depth (D.pre self.now.declarator) (D.post self.now.declarator) }
        ensures { Reads (lines_at (kinds_of self.now.tokens.now) self.now.depth place.old) result place.new }
    {
        let mut found = Items::new(self.alloc);
        for _turn in 0..self.depth {
            if let Mark::CurlyCloses = mark_at(self.tokens, place) {
                return Ok(found);
            }
            let line = self.line(place)?;
            found.push(line)?;
        }
        Err(refuse(place))
    }
}

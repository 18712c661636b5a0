//! The constants of enumerations (C11 6.7.2.2).

ghost use Rattle.std.specs.Prelude.{◌≡◌, ◌<◌, false, OnOk};
ghost use Rattle.c_tree.specs.Places.{declare};
ghost use Rattle.c_tree.specs.SpellsText.{kinds_of};
ghost use Rattle.c_grammar.specs.Marks.{mark_at};
ghost use Rattle.c_grammar.specs.Readers as readers;
ghost use Rattle.c_cursor.specs.Reads.{Reads};
ghost use Rattle.c_cursor.specs.Parts.{ReadsExpressions, constants_at};
ghost use Rattle.c_specifiers.specs.Members.{constant_at, valued_constant, constant_after};

use c_boxes::keeping;
use c_cursor::{Cursor, Fault, Mark, mark_at, name, refuse};
use c_grammar::CONDITIONAL;
use c_tokens::Token;
use c_tree::{EnumConstant, Expression};
use kv_base::{Bytes, Copied, NoMemory};
use sqlite_items::Items;
use std::alloc::Global;

/// The name is declared from here on, and is no type.
fn declared(alloc: Global, name: &Bytes, place: &mut Cursor) -> Result<(), NoMemory>
    ensures { OnOk result (place.new ≡ declare place.old name.now false) }
{
    place.declare(name.copy(alloc)?, false)
}

/// The rules of enumeration constants, with what reads the expressions inside.
#[derive(Clone, Copy)]
pub struct Constants<'t, R> {
    pub alloc: Global,
    pub tokens: &'t [Token],
    /// How many steps may still be taken.
    pub depth: usize,
    /// Reads an expression of a level or above in at most a given number of steps.
    pub read: R,
}

impl<'t, R: Fn(Global, &[Token], usize, u8, &mut Cursor) -> Result<Expression, Fault>> Constants<
    't,
    R,
> {
    /// A constant expression.
    fn value(&self, place: &mut Cursor) -> Result<Expression, Fault>
        requires expressions { ReadsExpressions self.now.depth (R.pre self.now.read) (R.post self.now.read) }
        ensures { Reads (readers.read (kinds_of self.now.tokens.now) self.now.depth 2 place.old) result place.new }
    {
        (self.read)(self.alloc, self.tokens, self.depth, CONDITIONAL, place)
    }

    /// An enumeration constant with its value, from the `=` on.
    fn valued_constant(
        &self,
        name: Bytes,
        at: usize,
        place: &mut Cursor,
    ) -> Result<EnumConstant, Fault>
        requires expressions { ReadsExpressions self.now.depth (R.pre self.now.read) (R.post self.now.read) }
        requires here { place.old.at < usize.MAX }
        ensures { Reads (valued_constant (kinds_of self.now.tokens.now) self.now.depth name at place.old) result place.new }
    {
        place.skip();
        let value = self.value(place)?;
        let (value, _) = keeping(value, declared(self.alloc, &name, place))?;
        Ok(EnumConstant::Valued { name, value, at })
    }

    /// An enumeration constant whose name was read. It is declared from here on.
    fn constant_after(
        &self,
        name: Bytes,
        at: usize,
        place: &mut Cursor,
    ) -> Result<EnumConstant, Fault>
        requires expressions { ReadsExpressions self.now.depth (R.pre self.now.read) (R.post self.now.read) }
        ensures { let kinds = kinds_of self.now.tokens.now in Reads (constant_after kinds self.now.depth name at place.old (mark_at kinds place.old)) result place.new }
    {
        match mark_at(self.tokens, place) {
            Mark::Equals => self.valued_constant(name, at, place),
            _ => {
                declared(self.alloc, &name, place)?;
                Ok(EnumConstant::Next { name, at })
            }
        }
    }

    /// An enumeration constant (6.7.2.2).
    #[tactic(auto, using(crate::proofs::ConstantSteps::constant_read))]
    fn enum_constant(&self, place: &mut Cursor) -> Result<EnumConstant, Fault>
        requires expressions { ReadsExpressions self.now.depth (R.pre self.now.read) (R.post self.now.read) }
        ensures { Reads (constant_at (kinds_of self.now.tokens.now) self.now.depth place.old) result place.new }
    {
        let at = place.at();
        let name = name(self.alloc, self.tokens, place)?;
        self.constant_after(name, at, place)
    }

    /// Enumeration constants with a comma between each two; a comma may end them.
    pub fn constants(&self, place: &mut Cursor) -> Result<Items<EnumConstant>, Fault>
        requires expressions { ReadsExpressions self.now.depth (R.pre self.now.read) (R.post self.now.read) }
        ensures { Reads (constants_at (kinds_of self.now.tokens.now) self.now.depth place.old) result place.new }
    {
        let mut found = Items::new(self.alloc);
        for _turn in 0..self.depth {
            let constant = self.enum_constant(place)?;
            found.push(constant)?;
            let Mark::Comma = mark_at(self.tokens, place) else {
                return Ok(found);
            };
            place.skip();
            if let Mark::CurlyCloses = mark_at(self.tokens, place) {
                return Ok(found);
            }
        }
        Err(refuse(place))
    }
}

//! What an expression begins with (C11 6.5.1, 6.5.3, 6.5.4).

ghost use Rattle.std.specs.Prelude.{◌≡◌, ◌<◌, IsTrue};
ghost use Rattle.c_tree.specs.Places.{next};
ghost use Rattle.c_tree.specs.SpellsText.{kinds_of};
ghost use Rattle.c_grammar.specs.Kinds.{kind_at, prefix, prefix_of, begins_type, Names, Constants, Texts, StepsFirst, Operates};
ghost use Rattle.c_grammar.specs.ReadExpressions as spec;
ghost use Rattle.c_grammar.specs.Readers as readers;
ghost use Rattle.c_cursor.specs.Reads.{Reads};
ghost use Rattle.c_cursor.specs.Parts.{ReadsExpressions, ReadsPart};
ghost use Rattle.c_operands.specs.Operands.{operand, opens_type, closed_expression, closed_type, grouped, cast, sized_type, sized_operand};

use crate::Suffixes;
use c_boxes::{keeping, pair};
use c_cursor::{Cursor, Fault, Mark, begins_type, is_start, refuse, take};
use c_grammar::{CAST, POSTFIX, UNARY};
use c_tokens::{Token, TokenKind};
use c_tree::{Expression, Step, TypeName, UnaryOperator};
use kv_base::{Bytes, Copied};
use kv_num::IntType;
use sqlite_items::Boxed;
use std::alloc::Global;

/// Whether a `(` comes next and a type name after it.
fn opens_type(tokens: &[Token], place: &Cursor) -> bool
    ensures value { result ≡ opens_type (kinds_of tokens.now) place.now }
    ensures within { IsTrue result → place.now.at < usize.MAX }
{
    match place.kind(tokens) {
        Some(TokenKind::LeftParenthesis) => is_start(place.second(tokens), place),
        _ => false,
    }
}

/// The rules of what an expression begins with, with what reads the expressions and the type names inside.
#[derive(Clone, Copy)]
pub struct Operands<'t, R, T> {
    /// Reads what follows an operand.
    pub suffixes: Suffixes<'t, R>,
    /// Reads a type name in at most a given number of steps.
    pub types: T,
}

impl<'t, R, T: Fn(Global, &[Token], usize, &mut Cursor) -> Result<TypeName, Fault>> Operands<
    't,
    R,
    T,
> {
    /// A type name.
    fn types(&self, place: &mut Cursor) -> Result<TypeName, Fault>
        requires types { ReadsPart readers.types self.now.suffixes.depth (T.pre self.now.types) (T.post self.now.types) }
        ensures { Reads (readers.types (kinds_of self.now.suffixes.tokens.now) self.now.suffixes.depth place.old) result place.new }
    {
        (self.types)(
            self.suffixes.alloc,
            self.suffixes.tokens,
            self.suffixes.depth,
            place,
        )
    }

    /// A type name with the `)` after it.
    fn closed_type(&self, place: &mut Cursor) -> Result<TypeName, Fault>
        requires types { ReadsPart readers.types self.now.suffixes.depth (T.pre self.now.types) (T.post self.now.types) }
        ensures { Reads (closed_type (kinds_of self.now.suffixes.tokens.now) self.now.suffixes.depth place.old) result place.new }
    {
        let named = self.types(place)?;
        let (named, _) = keeping(named, take(self.suffixes.tokens, Mark::RoundCloses, place))?;
        Ok(named)
    }
}

impl<'t, R: Fn(Global, &[Token], usize, u8, &mut Cursor) -> Result<Expression, Fault>, T> Operands<
    't,
    R,
    T,
> {
    /// An expression with the `)` after it.
    fn closed_expression(&self, place: &mut Cursor) -> Result<Expression, Fault>
        requires expressions { ReadsExpressions self.now.suffixes.depth (R.pre self.now.suffixes.read) (R.post self.now.suffixes.read) }
        ensures { Reads (closed_expression (kinds_of self.now.suffixes.tokens.now) self.now.suffixes.depth place.old) result place.new }
    {
        let inner = self.suffixes.read(self.suffixes.depth, 0, place)?;
        let (inner, _) = keeping(inner, take(self.suffixes.tokens, Mark::RoundCloses, place))?;
        Ok(inner)
    }

    /// A name (6.5.1), which is no typedef name.
    fn named(&self, least: u8, text: &Bytes, place: &mut Cursor) -> Result<Expression, Fault>
        requires expressions { ReadsExpressions self.now.suffixes.depth (R.pre self.now.suffixes.read) (R.post self.now.suffixes.read) }
        requires here { place.old.at < usize.MAX }
        ensures { Reads (operand (kinds_of self.now.suffixes.tokens.now) self.now.suffixes.depth least place.old (Names text.now)) result place.new }
    {
        if place.names_type(text.as_slice()) {
            return Err(refuse(place));
        }
        let at = place.at();
        let name = text.copy(self.suffixes.alloc)?;
        place.skip();
        self.suffixes
            .more(POSTFIX, least, Expression::Name { name, at }, place)
    }

    /// A constant (6.5.1).
    fn constant(
        &self,
        least: u8,
        kind: IntType,
        value: i128,
        place: &mut Cursor,
    ) -> Result<Expression, Fault>
        requires expressions { ReadsExpressions self.now.suffixes.depth (R.pre self.now.suffixes.read) (R.post self.now.suffixes.read) }
        requires here { place.old.at < usize.MAX }
        ensures { Reads (operand (kinds_of self.now.suffixes.tokens.now) self.now.suffixes.depth least place.old (Constants kind value)) result place.new }
    {
        let at = place.at();
        place.skip();
        self.suffixes.more(
            POSTFIX,
            least,
            Expression::Constant { kind, value, at },
            place,
        )
    }

    /// A string literal (6.5.1).
    fn text(&self, least: u8, place: &mut Cursor) -> Result<Expression, Fault>
        requires expressions { ReadsExpressions self.now.suffixes.depth (R.pre self.now.suffixes.read) (R.post self.now.suffixes.read) }
        requires here { place.old.at < usize.MAX }
        ensures { Reads (operand (kinds_of self.now.suffixes.tokens.now) self.now.suffixes.depth least place.old Texts) result place.new }
    {
        let at = place.at();
        place.skip();
        self.suffixes
            .more(POSTFIX, least, Expression::Text { at }, place)
    }

    /// `++` or `--` before an operand (6.5.3.1).
    fn stepped_first(&self, least: u8, step: Step, place: &mut Cursor) -> Result<Expression, Fault>
        requires expressions { ReadsExpressions self.now.suffixes.depth (R.pre self.now.suffixes.read) (R.post self.now.suffixes.read) }
        requires here { place.old.at < usize.MAX }
        ensures { Reads (operand (kinds_of self.now.suffixes.tokens.now) self.now.suffixes.depth least place.old (StepsFirst step)) result place.new }
    {
        let at = place.at();
        place.skip();
        let operand = Boxed::new(
            self.suffixes.alloc,
            self.suffixes.read(self.suffixes.depth, UNARY, place)?,
        )?;
        self.suffixes.more(
            UNARY,
            least,
            Expression::Prefix { step, operand, at },
            place,
        )
    }

    /// A unary operator before an operand (6.5.3.3).
    fn operated(
        &self,
        least: u8,
        operator: UnaryOperator,
        place: &mut Cursor,
    ) -> Result<Expression, Fault>
        requires expressions { ReadsExpressions self.now.suffixes.depth (R.pre self.now.suffixes.read) (R.post self.now.suffixes.read) }
        requires here { place.old.at < usize.MAX }
        ensures { Reads (operand (kinds_of self.now.suffixes.tokens.now) self.now.suffixes.depth least place.old (Operates operator)) result place.new }
    {
        let at = place.at();
        place.skip();
        let operand = Boxed::new(
            self.suffixes.alloc,
            self.suffixes.read(self.suffixes.depth, CAST, place)?,
        )?;
        self.suffixes.more(
            UNARY,
            least,
            Expression::Unary {
                operator,
                operand,
                at,
            },
            place,
        )
    }

    /// `( expression )`, after the `(`.
    fn grouped(&self, least: u8, place: &mut Cursor) -> Result<Expression, Fault>
        requires expressions { ReadsExpressions self.now.suffixes.depth (R.pre self.now.suffixes.read) (R.post self.now.suffixes.read) }
        ensures { Reads (grouped (kinds_of self.now.suffixes.tokens.now) self.now.suffixes.depth least place.old) result place.new }
    {
        let inner = self.closed_expression(place)?;
        self.suffixes.more(POSTFIX, least, inner, place)
    }

    /// `sizeof operand`, after `sizeof`, which stands at `at`.
    fn sized_operand(&self, least: u8, at: usize, place: &mut Cursor) -> Result<Expression, Fault>
        requires expressions { ReadsExpressions self.now.suffixes.depth (R.pre self.now.suffixes.read) (R.post self.now.suffixes.read) }
        ensures { Reads (sized_operand (kinds_of self.now.suffixes.tokens.now) self.now.suffixes.depth least at place.old) result place.new }
    {
        let operand = Boxed::new(
            self.suffixes.alloc,
            self.suffixes.read(self.suffixes.depth, UNARY, place)?,
        )?;
        self.suffixes.more(
            UNARY,
            least,
            Expression::SizeofExpression { operand, at },
            place,
        )
    }
}

impl<
    't,
    R: Fn(Global, &[Token], usize, u8, &mut Cursor) -> Result<Expression, Fault>,
    T: Fn(Global, &[Token], usize, &mut Cursor) -> Result<TypeName, Fault>,
> Operands<'t, R, T> {
    /// `( type-name ) operand`, after the `(`, which stands at `at`.
    fn cast(&self, least: u8, at: usize, place: &mut Cursor) -> Result<Expression, Fault>
        requires expressions { ReadsExpressions self.now.suffixes.depth (R.pre self.now.suffixes.read) (R.post self.now.suffixes.read) }
        requires types { ReadsPart readers.types self.now.suffixes.depth (T.pre self.now.types) (T.post self.now.types) }
        ensures { Reads (cast (kinds_of self.now.suffixes.tokens.now) self.now.suffixes.depth least at place.old) result place.new }
    {
        let type_name = self.closed_type(place)?;
        let operand = self.suffixes.read(self.suffixes.depth, CAST, place);
        let (type_name, operand) = keeping(type_name, operand)?;
        let (type_name, operand) = pair(self.suffixes.alloc, type_name, operand)?;
        let whole = Expression::Cast {
            type_name,
            operand,
            at,
        };
        self.suffixes.more(CAST, least, whole, place)
    }

    /// What begins with a `(`.
    #[tactic(auto, using(crate::proofs::Bracketed::bracketed_group, crate::proofs::Bracketed::bracketed_cast, crate::proofs::Bracketed::bracketed_none))]
    fn bracketed(&self, least: u8, place: &mut Cursor) -> Result<Expression, Fault>
        requires expressions { ReadsExpressions self.now.suffixes.depth (R.pre self.now.suffixes.read) (R.post self.now.suffixes.read) }
        requires types { ReadsPart readers.types self.now.suffixes.depth (T.pre self.now.types) (T.post self.now.types) }
        requires here { place.old.at < usize.MAX }
        ensures { let kinds = kinds_of self.now.suffixes.tokens.now in let n = self.now.suffixes.depth in Reads (spec.bracketed kinds (readers.read kinds n) (readers.types kinds n) (readers.more kinds n) least place.old (begins_type kinds (next place.old))) result place.new }
    {
        let at = place.at();
        place.skip();
        if !begins_type(self.suffixes.tokens, place) {
            return self.grouped(least, place);
        }
        if least > CAST {
            return Err(refuse(place));
        }
        self.cast(least, at, place)
    }

    /// `sizeof ( type-name )`, after the `(`; `sizeof` stands at `at`.
    fn sized_type(&self, least: u8, at: usize, place: &mut Cursor) -> Result<Expression, Fault>
        requires expressions { ReadsExpressions self.now.suffixes.depth (R.pre self.now.suffixes.read) (R.post self.now.suffixes.read) }
        requires types { ReadsPart readers.types self.now.suffixes.depth (T.pre self.now.types) (T.post self.now.types) }
        ensures { Reads (sized_type (kinds_of self.now.suffixes.tokens.now) self.now.suffixes.depth least at place.old) result place.new }
    {
        let type_name = Boxed::new(self.suffixes.alloc, self.closed_type(place)?)?;
        self.suffixes.more(
            UNARY,
            least,
            Expression::SizeofType { type_name, at },
            place,
        )
    }

    /// What begins with `sizeof`.
    #[tactic(auto, using(crate::proofs::Bracketed::sized_as_type, crate::proofs::Bracketed::sized_as_operand))]
    fn sized(&self, least: u8, place: &mut Cursor) -> Result<Expression, Fault>
        requires expressions { ReadsExpressions self.now.suffixes.depth (R.pre self.now.suffixes.read) (R.post self.now.suffixes.read) }
        requires types { ReadsPart readers.types self.now.suffixes.depth (T.pre self.now.types) (T.post self.now.types) }
        requires here { place.old.at < usize.MAX }
        ensures { let kinds = kinds_of self.now.suffixes.tokens.now in let n = self.now.suffixes.depth in Reads (spec.sized kinds (readers.read kinds n) (readers.types kinds n) (readers.more kinds n) least place.old (prefix (kind_at kinds (next place.old)))) result place.new }
    {
        let at = place.at();
        place.skip();
        if opens_type(self.suffixes.tokens, place) {
            place.skip();
            return self.sized_type(least, at, place);
        }
        self.sized_operand(least, at, place)
    }

    /// What begins with a token of this kind.
    fn begun(&self, least: u8, kind: &TokenKind, place: &mut Cursor) -> Result<Expression, Fault>
        requires expressions { ReadsExpressions self.now.suffixes.depth (R.pre self.now.suffixes.read) (R.post self.now.suffixes.read) }
        requires types { ReadsPart readers.types self.now.suffixes.depth (T.pre self.now.types) (T.post self.now.types) }
        requires here { place.old.at < usize.MAX }
        ensures { Reads (operand (kinds_of self.now.suffixes.tokens.now) self.now.suffixes.depth least place.old (prefix_of kind.now)) result place.new }
    {
        match kind {
            TokenKind::Name { text } => self.named(least, text, place),
            TokenKind::Constant { kind, value } => self.constant(least, *kind, *value, place),
            TokenKind::Text => self.text(least, place),
            TokenKind::LeftParenthesis => self.bracketed(least, place),
            TokenKind::Increment => self.stepped_first(least, Step::Increment, place),
            TokenKind::Decrement => self.stepped_first(least, Step::Decrement, place),
            TokenKind::Ampersand => self.operated(least, UnaryOperator::Address, place),
            TokenKind::Star => self.operated(least, UnaryOperator::Indirection, place),
            TokenKind::Plus => self.operated(least, UnaryOperator::Plus, place),
            TokenKind::Minus => self.operated(least, UnaryOperator::Minus, place),
            TokenKind::Tilde => self.operated(least, UnaryOperator::Complement, place),
            TokenKind::Exclamation => self.operated(least, UnaryOperator::Not, place),
            TokenKind::Sizeof => self.sized(least, place),
            _ => Err(refuse(place)),
        }
    }

    /// An expression of a level or above.
    pub fn operand(&self, least: u8, place: &mut Cursor) -> Result<Expression, Fault>
        requires expressions { ReadsExpressions self.now.suffixes.depth (R.pre self.now.suffixes.read) (R.post self.now.suffixes.read) }
        requires types { ReadsPart readers.types self.now.suffixes.depth (T.pre self.now.types) (T.post self.now.types) }
        ensures { Reads (operand (kinds_of self.now.suffixes.tokens.now) self.now.suffixes.depth least place.old (prefix (kind_at (kinds_of self.now.suffixes.tokens.now) place.old))) result place.new }
    {
        match place.kind(self.suffixes.tokens) {
            Some(kind) => self.begun(least, kind, place),
            None => Err(refuse(place)),
        }
    }
}

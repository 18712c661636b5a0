//! What follows an operand, by the levels of the operators (C11 6.5).

ghost use Rattle.std.specs.Prelude.{◌≡◌, ◌≤◌, ◌<◌, [], IfOk};
ghost use Rattle.c_tree.specs.SpellsText.{kinds_of};
ghost use Rattle.c_tree.specs.declared.expression.Expression.TheVariants as tree;
ghost use Rattle.c_grammar.specs.declared.kinds.Suffix.TheVariants as Suffix;
ghost use Rattle.c_grammar.specs.ReadExpressions as spec;
ghost use Rattle.c_grammar.specs.Readers as readers;
ghost use Rattle.c_cursor.specs.Reads.{Reads, IsSuffix};
ghost use Rattle.c_cursor.specs.Parts.{ReadsExpressions};
ghost use Rattle.c_operands.specs.Suffixed.{call_with, stop, suffixed};

use c_boxes::{beside, keeping, pair, triple, with_first};
use c_cursor::{Cursor, Fault, Mark, mark_at, name, refuse, suffix, take};
use c_grammar::{ASSIGNMENT, CONDITIONAL, Suffix, level};
use c_tokens::Token;
use c_tree::{AssignOperator, BinaryOperator, Expression, Step};
use kv_base::NoMemory;
use sqlite_items::{Boxed, Items};
use std::alloc::Global;

/// The node of a choice, whose `?` is at a token.
fn conditional(
    alloc: Global,
    test: Expression,
    taken: Expression,
    otherwise: Expression,
    at: usize,
) -> Result<Expression, NoMemory>
    ensures { IfOk result (λ made. made ≡ tree.Conditional test taken otherwise at) }
{
    let (test, then, otherwise) = triple(alloc, test, taken, otherwise)?;
    Ok(Expression::Conditional {
        test,
        then,
        otherwise,
        at,
    })
}

/// The rules of what follows an operand, with what reads the expressions inside.
#[derive(Clone, Copy)]
pub struct Suffixes<'t, R> {
    pub alloc: Global,
    pub tokens: &'t [Token],
    /// How many steps may still be taken.
    pub depth: usize,
    /// Reads an expression of a level or above in at most a given number of steps.
    pub read: R,
}

impl<'t, R: Fn(Global, &[Token], usize, u8, &mut Cursor) -> Result<Expression, Fault>> Suffixes<
    't,
    R,
> {
    /// An expression of a level or above, in at most a given number of steps.
    pub fn read(&self, depth: usize, least: u8, place: &mut Cursor) -> Result<Expression, Fault>
        requires nested { ReadsExpressions self.now.depth (R.pre self.now.read) (R.post self.now.read) }
        requires within { depth ≤ self.now.depth }
        ensures { Reads (readers.read (kinds_of self.now.tokens.now) depth least place.old) result place.new }
    {
        (self.read)(self.alloc, self.tokens, depth, least, place)
    }

    /// Assignment expressions with a comma between each two.
    fn items(&self, depth: usize, place: &mut Cursor) -> Result<Items<Expression>, Fault>
        requires nested { ReadsExpressions self.now.depth (R.pre self.now.read) (R.post self.now.read) }
        requires within { depth ≤ self.now.depth }
        ensures { let kinds = kinds_of self.now.tokens.now in Reads (spec.items kinds (readers.read kinds depth) depth place.old) result place.new }
    {
        let mut found = Items::new(self.alloc);
        for _turn in 0..depth {
            let part = self.read(depth, ASSIGNMENT, place)?;
            found.push(part)?;
            let Suffix::Commas = suffix(self.tokens, place) else {
                return Ok(found);
            };
            place.skip();
        }
        Err(refuse(place))
    }

    /// A binary operator with its right operand (6.5.5 to 6.5.14).
    fn infix(
        &self,
        depth: usize,
        left: Expression,
        operator: BinaryOperator,
        place: &mut Cursor,
    ) -> Result<Expression, Fault>
        requires nested { ReadsExpressions self.now.depth (R.pre self.now.read) (R.post self.now.read) }
        requires within { depth ≤ self.now.depth }
        requires here { place.old.at < usize.MAX }
        ensures { Reads (suffixed (kinds_of self.now.tokens.now) depth left place.old (Suffix.Infix operator)) result place.new }
    {
        let at = place.at();
        place.skip();
        let (left, right) = keeping(left, self.read(depth, level(operator) + 1, place))?;
        let (left, right) = pair(self.alloc, left, right)?;
        Ok(Expression::Binary {
            operator,
            left,
            right,
            at,
        })
    }

    /// An assignment operator with its right operand (6.5.16).
    fn assigned(
        &self,
        depth: usize,
        target: Expression,
        operator: AssignOperator,
        place: &mut Cursor,
    ) -> Result<Expression, Fault>
        requires nested { ReadsExpressions self.now.depth (R.pre self.now.read) (R.post self.now.read) }
        requires within { depth ≤ self.now.depth }
        requires here { place.old.at < usize.MAX }
        ensures { Reads (suffixed (kinds_of self.now.tokens.now) depth target place.old (Suffix.Assigns operator)) result place.new }
    {
        let at = place.at();
        place.skip();
        let (target, value) = keeping(target, self.read(depth, ASSIGNMENT, place))?;
        let (target, value) = pair(self.alloc, target, value)?;
        Ok(Expression::Assign {
            operator,
            target,
            value,
            at,
        })
    }

    /// `? expression : expression` (6.5.15).
    fn chosen(
        &self,
        depth: usize,
        test: Expression,
        place: &mut Cursor,
    ) -> Result<Expression, Fault>
        requires nested { ReadsExpressions self.now.depth (R.pre self.now.read) (R.post self.now.read) }
        requires within { depth ≤ self.now.depth }
        requires here { place.old.at < usize.MAX }
        ensures { Reads (suffixed (kinds_of self.now.tokens.now) depth test place.old Suffix.Asks) result place.new }
    {
        let at = place.at();
        place.skip();
        let (test, taken) = keeping(test, self.read(depth, 0, place))?;
        self.choice(depth, test, at, taken, place)
    }

    /// The last part of a choice.
    fn choice(
        &self,
        depth: usize,
        test: Expression,
        at: usize,
        taken: Expression,
        place: &mut Cursor,
    ) -> Result<Expression, Fault>
        requires nested { ReadsExpressions self.now.depth (R.pre self.now.read) (R.post self.now.read) }
        requires within { depth ≤ self.now.depth }
        ensures { let kinds = kinds_of self.now.tokens.now in Reads (spec.choice_of kinds (readers.read kinds depth) stop 0 test (record { at = at; blocks = [] }) taken place.old) result place.new }
    {
        let (parts, _) = keeping((test, taken), take(self.tokens, Mark::Colon, place))?;
        let ((test, taken), otherwise) = keeping(parts, self.read(depth, CONDITIONAL, place))?;
        Ok(conditional(self.alloc, test, taken, otherwise, at)?)
    }

    /// The further operands of a comma expression (6.5.17).
    fn with_commas(
        &self,
        depth: usize,
        first: Expression,
        place: &mut Cursor,
    ) -> Result<Expression, Fault>
        requires nested { ReadsExpressions self.now.depth (R.pre self.now.read) (R.post self.now.read) }
        requires within { depth ≤ self.now.depth }
        requires here { place.old.at < usize.MAX }
        ensures { Reads (suffixed (kinds_of self.now.tokens.now) depth first place.old Suffix.Commas) result place.new }
    {
        let at = place.at();
        place.skip();
        let (first, further) = keeping(first, self.items(depth, place))?;
        let parts = with_first(self.alloc, first, further)?;
        Ok(Expression::Comma { parts, at })
    }

    /// `[ expression ]` (6.5.2.1).
    fn subscripted(
        &self,
        depth: usize,
        array: Expression,
        place: &mut Cursor,
    ) -> Result<Expression, Fault>
        requires nested { ReadsExpressions self.now.depth (R.pre self.now.read) (R.post self.now.read) }
        requires within { depth ≤ self.now.depth }
        requires here { place.old.at < usize.MAX }
        ensures { Reads (suffixed (kinds_of self.now.tokens.now) depth array place.old Suffix.Subscripts) result place.new }
    {
        let at = place.at();
        place.skip();
        let (array, index) = keeping(array, self.read(depth, 0, place))?;
        let ((array, index), _) = keeping(
            (array, index),
            take(self.tokens, Mark::SquareCloses, place),
        )?;
        let (array, index) = pair(self.alloc, array, index)?;
        Ok(Expression::Subscript { array, index, at })
    }

    /// The arguments of a call, at least one, and the `)` after them; the `(` is at a token.
    fn with_arguments(
        &self,
        depth: usize,
        function: Boxed<Expression>,
        at: usize,
        place: &mut Cursor,
    ) -> Result<Expression, Fault>
        requires nested { ReadsExpressions self.now.depth (R.pre self.now.read) (R.post self.now.read) }
        requires within { depth ≤ self.now.depth }
        ensures { Reads (call_with (kinds_of self.now.tokens.now) depth function at place.old) result place.new }
    {
        let (function, arguments) = keeping(function, self.items(depth, place))?;
        let closed = take(self.tokens, Mark::RoundCloses, place);
        let ((function, arguments), _) = keeping((function, arguments), closed)?;
        Ok(Expression::Call {
            function,
            arguments,
            at,
        })
    }

    /// `( arguments )` (6.5.2.2).
    fn called(
        &self,
        depth: usize,
        function: Expression,
        place: &mut Cursor,
    ) -> Result<Expression, Fault>
        requires nested { ReadsExpressions self.now.depth (R.pre self.now.read) (R.post self.now.read) }
        requires within { depth ≤ self.now.depth }
        requires here { place.old.at < usize.MAX }
        ensures { Reads (suffixed (kinds_of self.now.tokens.now) depth function place.old Suffix.Calls) result place.new }
    {
        let at = place.at();
        let function = Boxed::new(self.alloc, function)?;
        place.skip();
        match mark_at(self.tokens, place) {
            Mark::RoundCloses => {
                place.skip();
                Ok(Expression::Call {
                    function,
                    arguments: Items::new(self.alloc),
                    at,
                })
            }
            _ => self.with_arguments(depth, function, at, place),
        }
    }

    /// `.name` (6.5.2.3).
    #[tactic(auto, using(c_cursor::proofs::Single::name_then))]
    fn selected(
        &self,
        depth: usize,
        object: Expression,
        place: &mut Cursor,
    ) -> Result<Expression, Fault>
        requires here { place.old.at < usize.MAX }
        ensures { Reads (suffixed (kinds_of self.now.tokens.now) depth object place.old Suffix.Selects) result place.new }
    {
        let at = place.at();
        place.skip();
        let (object, name) = keeping(object, name(self.alloc, self.tokens, place))?;
        let (object, name) = beside(self.alloc, object, name)?;
        Ok(Expression::Member { object, name, at })
    }

    /// `->name` (6.5.2.3).
    #[tactic(auto, using(c_cursor::proofs::Single::name_then))]
    fn pointed(
        &self,
        depth: usize,
        pointer: Expression,
        place: &mut Cursor,
    ) -> Result<Expression, Fault>
        requires here { place.old.at < usize.MAX }
        ensures { Reads (suffixed (kinds_of self.now.tokens.now) depth pointer place.old Suffix.Points) result place.new }
    {
        let at = place.at();
        place.skip();
        let (pointer, name) = keeping(pointer, name(self.alloc, self.tokens, place))?;
        let (pointer, name) = beside(self.alloc, pointer, name)?;
        Ok(Expression::PointedMember { pointer, name, at })
    }

    /// `++` or `--` after an operand (6.5.2.4).
    fn stepped(
        &self,
        depth: usize,
        operand: Expression,
        step: Step,
        place: &mut Cursor,
    ) -> Result<Expression, Fault>
        requires here { place.old.at < usize.MAX }
        ensures { Reads (suffixed (kinds_of self.now.tokens.now) depth operand place.old (Suffix.Steps step)) result place.new }
    {
        let at = place.at();
        place.skip();
        Ok(Expression::Postfix {
            step,
            operand: Boxed::new(self.alloc, operand)?,
            at,
        })
    }

    /// An operand with its next suffix.
    fn suffixed(
        &self,
        depth: usize,
        left: Expression,
        suffix: Suffix,
        place: &mut Cursor,
    ) -> Result<Expression, Fault>
        requires nested { ReadsExpressions self.now.depth (R.pre self.now.read) (R.post self.now.read) }
        requires within { depth ≤ self.now.depth }
        requires here { IsSuffix suffix → place.old.at < usize.MAX }
        ensures { Reads (suffixed (kinds_of self.now.tokens.now) depth left place.old suffix) result place.new }
    {
        match suffix {
            Suffix::Infix(operator) => self.infix(depth, left, operator, place),
            Suffix::Assigns(operator) => self.assigned(depth, left, operator, place),
            Suffix::Asks => self.chosen(depth, left, place),
            Suffix::Commas => self.with_commas(depth, left, place),
            Suffix::Subscripts => self.subscripted(depth, left, place),
            Suffix::Calls => self.called(depth, left, place),
            Suffix::Selects => self.selected(depth, left, place),
            Suffix::Points => self.pointed(depth, left, place),
            Suffix::Steps(step) => self.stepped(depth, left, step, place),
            Suffix::NoSuffix => Err(refuse(place)),
        }
    }

    /// An operand with its next suffix, as one node more.
    fn grown(
        &self,
        depth: usize,
        left: Expression,
        suffix: Suffix,
        place: &mut Cursor,
    ) -> Result<Expression, Fault>
        requires nested { ReadsExpressions self.now.depth (R.pre self.now.read) (R.post self.now.read) }
        requires within { depth ≤ self.now.depth }
        requires here { IsSuffix suffix → place.old.at < usize.MAX }
        ensures { Reads (suffixed (kinds_of self.now.tokens.now) depth left place.old suffix) result place.new }
    {
        let whole = self.suffixed(depth, left, suffix, place)?;
        Ok(place.grow(whole)?)
    }

    /// What follows an operand of a level, in an expression of a level or above.
    pub fn more(
        &self,
        mut reached: u8,
        least: u8,
        mut left: Expression,
        place: &mut Cursor,
    ) -> Result<Expression, Fault>
        requires nested { ReadsExpressions self.now.depth (R.pre self.now.read) (R.post self.now.read) }
        ensures { Reads (readers.more (kinds_of self.now.tokens.now) self.now.depth reached least left place.old) result place.new }
    {
        for turn in 0..self.depth {
            let next = suffix(self.tokens, place);
            if !next.goes_on(reached, least) {
                return Ok(left);
            }
            let depth = self.depth - turn - 1;
            left = self.grown(depth, left, next, place)?;
            reached = next.reaches();
        }
        if suffix(self.tokens, place).goes_on(reached, least) {
            return Err(refuse(place));
        }
        Ok(left)
    }
}

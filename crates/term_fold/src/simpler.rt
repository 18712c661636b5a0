ghost use Rattle.std.specs.Prelude.{◌≡◌, ◌<◌, length, IfSome};
ghost use Rattle.term_core.specs.declared.term.TermKind.TheVariants as Kind;
ghost use Rattle.term_core.specs.Shape.{IsShape};
ghost use Rattle.term_core.specs.Table.{IsKindAt};
ghost use Rattle.term_fold.specs.Folded.{IsConstant, AreOperands, IsSimpler, chosen_of};

use crate::computed::unary as computed_unary;
use crate::operands::{Operands, Pick};
use crate::picks::{fits_picked, picked};
use term_core::{BinaryOp, Shape, TermId, TermKind, Terms, UnaryOp};

/// What takes the place of a term.
#[derive(Clone, Copy)]
pub(crate) enum Simpler {
    /// A term of the table.
    Same(TermId),
    /// A constant.
    Computed(i128),
    /// A term that is made of this.
    Other(TermKind),
}

/// The number of a term, if it is a constant.
#[tactic(auto, using(crate::proofs::Known::known))]
fn constant_of(terms: &Terms, id: TermId) -> Option<i128>
    requires { id.0 < length terms.now }
    ensures { IfSome result (IsConstant terms.now id) }
{
    match terms.get(id).kind {
        TermKind::Constant { number } => Some(number),
        _ => None,
    }
}

/// What is known of two terms as operands.
fn operands_of(terms: &Terms, left: TermId, right: TermId) -> Operands
    requires left { left.0 < length terms.now }
    requires right { right.0 < length terms.now }
    ensures { AreOperands terms.now left right result }
{
    terms.values_are_fixed();
    Operands {
        shape: terms.get(left).shape,
        other: terms.get(right).shape,
        left: constant_of(terms, left),
        right: constant_of(terms, right),
        same: left == right,
    }
}

/// What is picked of two terms, and else what is given.
fn chosen(pick: Pick, left: TermId, right: TermId, kind: TermKind) -> Simpler
    ensures { result ≡ chosen_of pick left right kind }
{
    match pick {
        Pick::Left => Simpler::Same(left),
        Pick::Right => Simpler::Same(right),
        Pick::Number(number) => Simpler::Computed(number),
        Pick::Neither => Simpler::Other(kind),
    }
}

/// What takes the place of an operation on one term: its number, or what is twice negated.
#[tactic(auto, using(crate::proofs::Known::units))]
fn unary(terms: &Terms, shape: Shape, op: UnaryOp, of: TermId) -> Simpler
    requires { IsKindAt terms.now (length terms.now) shape (Kind.Unary op of) }
    ensures { IsSimpler terms.now shape (Kind.Unary op of) result }
{
    terms.values_are_fixed();
    if let Some(number) = constant_of(terms, of) {
        return Simpler::Computed(computed_unary(shape, op, number));
    }
    if let TermKind::Unary {
        op: inner,
        of: inside,
    } = terms.get(of).kind
    {
        if inner == op {
            return Simpler::Same(inside);
        }
    }
    Simpler::Other(TermKind::Unary { op, of })
}

/// What takes the place of an operation on two terms.
fn binary(terms: &Terms, shape: Shape, op: BinaryOp, left: TermId, right: TermId) -> Simpler
    requires { IsKindAt terms.now (length terms.now) shape (Kind.Binary op left right) }
    ensures { IsSimpler terms.now shape (Kind.Binary op left right) result }
{
    let operands = operands_of(terms, left, right);
    let pick = picked(op, operands);
    chosen(pick, left, right, TermKind::Binary { op, left, right })
}

/// What takes the place of a test of whether a result fits.
fn fits(terms: &Terms, shape: Shape, op: BinaryOp, left: TermId, right: TermId) -> Simpler
    requires { IsKindAt terms.now (length terms.now) shape (Kind.Fits op left right) }
    ensures { IsSimpler terms.now shape (Kind.Fits op left right) result }
{
    let operands = operands_of(terms, left, right);
    let pick = fits_picked(op, operands);
    chosen(pick, left, right, TermKind::Fits { op, left, right })
}

/// What takes the place of a choice: one of the two, where the test is known or they are one term.
#[tactic(auto, using(crate::proofs::Known::choices))]
fn select(terms: &Terms, shape: Shape, test: TermId, yes: TermId, no: TermId) -> Simpler
    requires { IsKindAt terms.now (length terms.now) shape (Kind.Select test yes no) }
    ensures { IsSimpler terms.now shape (Kind.Select test yes no) result }
{
    if yes == no {
        return Simpler::Same(yes);
    }
    let Some(truth) = constant_of(terms, test) else {
        return Simpler::Other(TermKind::Select { test, yes, no });
    };
    if truth == 0 {
        return Simpler::Same(no);
    }
    Simpler::Same(yes)
}

/// What takes the place of a conversion: the term itself where it has the shape, its number, or one
/// conversion where there are two and the first does not narrow more than the second.
#[tactic(auto, using(crate::proofs::Known::conversions))]
fn convert(terms: &Terms, shape: Shape, of: TermId) -> Simpler
    requires valid { IsShape shape }
    requires kind { IsKindAt terms.now (length terms.now) shape (Kind.Convert of) }
    ensures { IsSimpler terms.now shape (Kind.Convert of) result }
{
    terms.values_are_fixed();
    let term = terms.get(of);
    if term.shape == shape {
        return Simpler::Same(of);
    }
    if let Some(number) = constant_of(terms, of) {
        return Simpler::Computed(kv_num::wrap_at(shape.width, shape.signed, number));
    }
    if let TermKind::Convert { of: inside } = term.kind {
        if shape.width <= term.shape.width {
            return converted(terms, shape, inside);
        }
    }
    Simpler::Other(TermKind::Convert { of })
}

/// A conversion, or the term itself where it has the shape.
#[tactic(auto, using(crate::proofs::Known::conversions))]
fn converted(terms: &Terms, shape: Shape, of: TermId) -> Simpler
    requires { of.0 < length terms.now }
    ensures { IsSimpler terms.now shape (Kind.Convert of) result }
{
    terms.values_are_fixed();
    if terms.get(of).shape == shape {
        return Simpler::Same(of);
    }
    Simpler::Other(TermKind::Convert { of })
}

/// What takes the place of a term.
#[tactic(auto, using(crate::proofs::Known::other_stays))]
pub(crate) fn simplify(terms: &Terms, shape: Shape, kind: TermKind) -> Simpler
    requires valid { IsShape shape }
    requires kind { IsKindAt terms.now (length terms.now) shape kind }
    ensures { IsSimpler terms.now shape kind result }
{
    match kind {
        TermKind::Constant { .. } | TermKind::Variable { .. } => Simpler::Other(kind),
        TermKind::Unary { op, of } => unary(terms, shape, op, of),
        TermKind::Binary { op, left, right } => binary(terms, shape, op, left, right),
        TermKind::Fits { op, left, right } => fits(terms, shape, op, left, right),
        TermKind::Select { test, yes, no } => select(terms, shape, test, yes, no),
        TermKind::Convert { of } => convert(terms, shape, of),
    }
}

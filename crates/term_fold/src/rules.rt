ghost use Rattle.std.specs.Prelude.{◌≡◌, pos};
ghost use Rattle.term_core.specs.declared.term.BinaryOp.TheVariants as Op;
ghost use Rattle.term_core.specs.Shape.{IsShape, HasShape};
ghost use Rattle.term_fold.specs.Picks.{IsFor, IsPickOf, ones_of};

use crate::operands::{Operands, Pick, is_number};
use term_core::{BinaryOp, Shape};

/// The number of a shape whose bits are all set.
fn all_ones(shape: Shape) -> i128
    requires { IsShape shape }
    ensures value { result ≡ ones_of shape }
    ensures shape { HasShape shape result }
{
    if shape.signed {
        return -1;
    }
    (1 << shape.width) - 1
}

/// A sum with 0.
#[tactic(auto, using(crate::proofs::Simplifications::sums))]
fn sum(o: Operands) -> Pick
    requires { IsFor Op.Add o }
    ensures { IsPickOf Op.Add o result }
{
    if is_number(o.right, 0) {
        return Pick::Left;
    }
    if is_number(o.left, 0) {
        return Pick::Right;
    }
    Pick::Neither
}

/// A difference with 0, or of a term and itself.
#[tactic(auto, using(crate::proofs::Simplifications::sums))]
fn difference(o: Operands) -> Pick
    requires { IsFor Op.Sub o }
    ensures { IsPickOf Op.Sub o result }
{
    if is_number(o.right, 0) {
        return Pick::Left;
    }
    if o.same {
        return Pick::Number(0);
    }
    Pick::Neither
}

/// A product with 0 or 1.
#[tactic(auto, using(crate::proofs::Simplifications::products))]
fn product(o: Operands) -> Pick
    requires { IsFor Op.Mul o }
    ensures { IsPickOf Op.Mul o result }
{
    if is_number(o.left, 0) || is_number(o.right, 0) {
        return Pick::Number(0);
    }
    if is_number(o.right, 1) {
        return Pick::Left;
    }
    if is_number(o.left, 1) {
        return Pick::Right;
    }
    Pick::Neither
}

/// A quotient by 1, or of 0.
#[tactic(auto, using(crate::proofs::Simplifications::products))]
fn quotient(o: Operands) -> Pick
    requires { IsFor Op.Div o }
    ensures { IsPickOf Op.Div o result }
{
    if is_number(o.right, 1) {
        return Pick::Left;
    }
    if is_number(o.left, 0) {
        return Pick::Number(0);
    }
    Pick::Neither
}

/// A remainder by 1, or of 0.
#[tactic(auto, using(crate::proofs::Simplifications::products))]
fn remainder(o: Operands) -> Pick
    requires { IsFor Op.Rem o }
    ensures { IsPickOf Op.Rem o result }
{
    if is_number(o.right, 1) {
        return Pick::Number(0);
    }
    if is_number(o.left, 0) {
        return Pick::Number(0);
    }
    Pick::Neither
}

/// A shift to the left by 0, or of 0.
#[tactic(auto, using(crate::proofs::Simplifications::shifts))]
fn left_shift(o: Operands) -> Pick
    requires { IsFor Op.ShiftLeft o }
    ensures { IsPickOf Op.ShiftLeft o result }
{
    if is_number(o.right, 0) {
        return Pick::Left;
    }
    if is_number(o.left, 0) {
        return Pick::Number(0);
    }
    Pick::Neither
}

/// A shift to the right by 0, or of 0.
#[tactic(auto, using(crate::proofs::Simplifications::shifts))]
fn right_shift(o: Operands) -> Pick
    requires { IsFor Op.ShiftRight o }
    ensures { IsPickOf Op.ShiftRight o result }
{
    if is_number(o.right, 0) {
        return Pick::Left;
    }
    if is_number(o.left, 0) {
        return Pick::Number(0);
    }
    Pick::Neither
}

/// The common bits of a term and itself, no bits or all bits.
#[tactic(auto, using(crate::proofs::Simplifications::conjunctions))]
fn conjunction(o: Operands) -> Pick
    requires { IsFor Op.BitAnd o }
    ensures { IsPickOf Op.BitAnd o result }
{
    if is_number(o.left, 0) || is_number(o.right, 0) {
        return Pick::Number(0);
    }
    if o.same || is_number(o.right, all_ones(o.shape)) {
        return Pick::Left;
    }
    if is_number(o.left, all_ones(o.shape)) {
        return Pick::Right;
    }
    Pick::Neither
}

/// The bits of a term or itself, no bits or all bits.
#[tactic(auto, using(crate::proofs::Simplifications::disjunctions))]
fn disjunction(o: Operands) -> Pick
    requires { IsFor Op.BitOr o }
    ensures { IsPickOf Op.BitOr o result }
{
    if o.same || is_number(o.right, 0) {
        return Pick::Left;
    }
    if is_number(o.left, 0) {
        return Pick::Right;
    }
    let ones = all_ones(o.shape);
    if is_number(o.left, ones) || is_number(o.right, ones) {
        return Pick::Number(ones);
    }
    Pick::Neither
}

/// The different bits of a term and itself or no bits.
#[tactic(auto, using(crate::proofs::Simplifications::disjunctions))]
fn exclusive_disjunction(o: Operands) -> Pick
    requires { IsFor Op.BitXor o }
    ensures { IsPickOf Op.BitXor o result }
{
    if o.same {
        return Pick::Number(0);
    }
    if is_number(o.right, 0) {
        return Pick::Left;
    }
    if is_number(o.left, 0) {
        return Pick::Right;
    }
    Pick::Neither
}

/// A term is not less than itself.
fn less(o: Operands) -> Pick
    ensures { IsPickOf Op.Less o result }
{
    if o.same {
        Pick::Number(0)
    } else {
        Pick::Neither
    }
}

/// A term equals itself.
fn equal(o: Operands) -> Pick
    ensures { IsPickOf Op.Equal o result }
{
    if o.same {
        Pick::Number(1)
    } else {
        Pick::Neither
    }
}

/// What an operation comes to by its neutral and absorbing operands.
pub(crate) fn ruled(op: BinaryOp, o: Operands) -> Pick
    requires { IsFor op o }
    ensures { IsPickOf op o result }
{
    match op {
        BinaryOp::Add => sum(o),
        BinaryOp::Sub => difference(o),
        BinaryOp::Mul => product(o),
        BinaryOp::Div => quotient(o),
        BinaryOp::Rem => remainder(o),
        BinaryOp::ShiftLeft => left_shift(o),
        BinaryOp::ShiftRight => right_shift(o),
        BinaryOp::BitAnd => conjunction(o),
        BinaryOp::BitOr => disjunction(o),
        BinaryOp::BitXor => exclusive_disjunction(o),
        BinaryOp::Less => less(o),
        BinaryOp::Equal => equal(o),
    }
}

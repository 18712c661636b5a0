ghost use Rattle.std.specs.Prelude.{◌≡◌, ◌<◌, ℕ, Bool, length, IfOk};
ghost use Rattle.sat_clause.specs.Literals.{is_true};
ghost use Rattle.gate_core.specs.Table.{Agrees, IsLitOf, Grows};
ghost use Rattle.term_core.specs.Shape.{IsShape, has_shape, wrap_to};
ghost use Rattle.term_core.specs.Term.{quotient_by, remainder_by, unary_value, binary_value, fits_value, result_shape, OperandsFit};
ghost use Rattle.word_sums.specs.Words.{word_value, IsWordOf};

use crate::truths::truth_word;
use gate_core::Gates;
use kv_base::NoMemory;
use sat_clause::Lit;
use std::alloc::Global;
use term_core::{BinaryOp, Shape, UnaryOp};
use word_gates::{
    Word, add, and, div_rem, equal, less, mul, negate, not, or, shift_left, shift_right, sub, xor,
};

/// An operation on a word of a shape.
pub(crate) fn unary(
    alloc: Global,
    gates: &mut Gates,
    op: UnaryOp,
    a: &Word,
    shape: Shape,
) -> Result<Word, NoMemory>
    requires shape { IsShape shape }
    requires word { IsWordOf gates.old a.now }
    requires wide { length a.now ≡ shape.width }
    ensures len { IfOk result (λ w. length w ≡ shape.width) }
    ensures word { IfOk result (λ w. IsWordOf gates.new w) }
    ensures value { IfOk result (λ w. (A : ℕ → Bool) → Agrees A gates.new → word_value A shape.signed w ≡ unary_value shape op (word_value A shape.signed a.now)) }
    ensures grows { Grows gates.old gates.new }
{
    match op {
        UnaryOp::Negate => negate(alloc, gates, a),
        UnaryOp::BitNot => not(alloc, a),
    }
}

/// An operation on words of two shapes.
pub(crate) fn binary(
    alloc: Global,
    gates: &mut Gates,
    op: BinaryOp,
    a: &Word,
    b: &Word,
    s: Shape,
    r: Shape,
) -> Result<Word, NoMemory>
    requires shape { IsShape s }
    requires shapes { OperandsFit op s r }
    requires left { IsWordOf gates.old a.now }
    requires right { IsWordOf gates.old b.now }
    requires left_wide { length a.now ≡ s.width }
    requires right_wide { length b.now ≡ r.width }
    ensures len { IfOk result (λ w. length w ≡ (result_shape op s).width) }
    ensures word { IfOk result (λ w. IsWordOf gates.new w) }
    ensures value { IfOk result (λ w. (A : ℕ → Bool) → Agrees A gates.new → word_value A (result_shape op s).signed w ≡ binary_value s r op (word_value A s.signed a.now) (word_value A r.signed b.now)) }
    ensures grows { Grows gates.old gates.new }
{
    match op {
        BinaryOp::Add => Ok(add(alloc, gates, a, b, s.signed)?.value),
        BinaryOp::Sub => Ok(sub(alloc, gates, a, b, s.signed)?.value),
        BinaryOp::Mul => Ok(mul(alloc, gates, a, b, s.signed)?.value),
        BinaryOp::Div => Ok(div_rem(alloc, gates, a, b, s.signed)?.0.value),
        BinaryOp::Rem => Ok(div_rem(alloc, gates, a, b, s.signed)?.1.value),
        BinaryOp::ShiftLeft => Ok(shift_left(alloc, gates, a, b, s.signed)?.value),
        BinaryOp::ShiftRight => shift_right(alloc, gates, a, b, s.signed),
        BinaryOp::BitAnd => and(alloc, gates, a, b),
        BinaryOp::BitOr => or(alloc, gates, a, b),
        BinaryOp::BitXor => xor(alloc, gates, a, b),
        BinaryOp::Less => truth_word(alloc, less(alloc, gates, a, b, s.signed)?),
        BinaryOp::Equal => truth_word(alloc, equal(gates, a, b)?),
    }
}

/// Whether the exact result of an operation on words of two shapes fits.
pub(crate) fn fits(
    alloc: Global,
    gates: &mut Gates,
    op: BinaryOp,
    a: &Word,
    b: &Word,
    s: Shape,
    r: Shape,
) -> Result<Lit, NoMemory>
    requires shape { IsShape s }
    requires shapes { OperandsFit op s r }
    requires left { IsWordOf gates.old a.now }
    requires right { IsWordOf gates.old b.now }
    requires left_wide { length a.now ≡ s.width }
    requires right_wide { length b.now ≡ r.width }
    ensures within { IfOk result (IsLitOf gates.new) }
    ensures value { IfOk result (λ l. (A : ℕ → Bool) → Agrees A gates.new → is_true A l ≡ fits_value s r op (word_value A s.signed a.now) (word_value A r.signed b.now)) }
    ensures grows { Grows gates.old gates.new }
{
    match op {
        BinaryOp::Add => Ok(add(alloc, gates, a, b, s.signed)?.fits),
        BinaryOp::Sub => Ok(sub(alloc, gates, a, b, s.signed)?.fits),
        BinaryOp::Mul => Ok(mul(alloc, gates, a, b, s.signed)?.fits),
        BinaryOp::Div | BinaryOp::Rem => {
            let (quotient, _) = div_rem(alloc, gates, a, b, s.signed)?;
            Ok(quotient.fits)
        }
        BinaryOp::ShiftLeft => Ok(shift_left(alloc, gates, a, b, s.signed)?.fits),
        BinaryOp::ShiftRight
        | BinaryOp::BitAnd
        | BinaryOp::BitOr
        | BinaryOp::BitXor
        | BinaryOp::Less
        | BinaryOp::Equal => gates.constant(true),
    }
}

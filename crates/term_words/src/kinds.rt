ghost use Rattle.std.specs.Prelude.{◌≡◌, ◌<◌, ◌≤◌, ℕ, ℤ, Bool, false, pos, length, if◌then◌else◌, IfOk};
ghost use Rattle.std.specs.Ordering.{int_eq};
ghost use Rattle.gate_core.specs.declared.gate.Gate.{Gate};
ghost use Rattle.std.specs.Prelude.{List};
ghost use Rattle.gate_core.specs.Table.{Agrees, Grows};
ghost use Rattle.term_core.specs.Shape.{IsShape, wrap_to, one_bit};
ghost use Rattle.term_core.specs.Table.{shape_at, kind_value, IsOperand, IsKindAt};
ghost use Rattle.term_core.specs.Term.{truth, unary_value, binary_value, fits_value, result_shape, OperandsFit};
ghost use Rattle.word_sums.specs.Words.{word_value, IsWordOf};
ghost use Rattle.term_words.specs.Words.{numbers, AreWordsOf, AreWide, Give};

use crate::Words;
use crate::leaves::{constant, variable};
use crate::operations::{binary, fits, unary};
use crate::truths::{literal, truth_word};
use gate_core::Gates;
use kv_base::NoMemory;
use std::alloc::Global;
use term_core::{BinaryOp, Shape, TermId, TermKind, Terms, UnaryOp};
use word_gates::{Word, resize, select};

/// An earlier term's word, and its shape.
fn operand<'a>(terms: &Terms, words: &'a Words, id: TermId) -> (&'a Word, Shape)
    requires within { id.0 < length words.now }
    requires terms { length words.now ≤ length terms.now }
    requires wide { AreWide terms.now words.now }
    ensures shape { result.1 ≡ shape_at terms.now id.0 }
    ensures valid { IsShape result.1 }
    ensures wide { length result.0.now ≡ result.1.width }
    ensures word { (gates : List Gate) → AreWordsOf gates words.now → IsWordOf gates result.0.now }
    ensures value { (A : ℕ → Bool) (V : ℕ → ℤ) → Give A terms.now words.now V → word_value A result.1.signed result.0.now ≡ V id.0 }
{
    terms.values_are_fixed();
    (&words.as_slice()[id.0 as usize], terms.get(id).shape)
}

/// The word of an operation on a term.
fn unary_term(
    alloc: Global,
    gates: &mut Gates,
    terms: &Terms,
    words: &Words,
    op: UnaryOp,
    of: TermId,
) -> Result<Word, NoMemory>
    requires within { of.0 < length words.now }
    requires terms { length words.now ≤ length terms.now }
    requires words { AreWordsOf gates.old words.now }
    requires wide { AreWide terms.now words.now }
    ensures len { IfOk result (λ w. length w ≡ (shape_at terms.now of.0).width) }
    ensures word { IfOk result (λ w. IsWordOf gates.new w) }
    ensures value { IfOk result (λ w. (A : ℕ → Bool) (V : ℕ → ℤ) → Agrees A gates.new → Give A terms.now words.now V → word_value A (shape_at terms.now of.0).signed w ≡ unary_value (shape_at terms.now of.0) op (V of.0)) }
    ensures grows { Grows gates.old gates.new }
{
    let (a, shape) = operand(terms, words, of);
    let word = unary(alloc, gates, op, a, shape)?;
    Ok(word)
}

/// The word of an operation on two terms.
fn binary_term(
    alloc: Global,
    gates: &mut Gates,
    terms: &Terms,
    words: &Words,
    op: BinaryOp,
    left: TermId,
    right: TermId,
) -> Result<Word, NoMemory>
    requires left { left.0 < length words.now }
    requires right { right.0 < length words.now }
    requires shapes { OperandsFit op (shape_at terms.now left.0) (shape_at terms.now right.0) }
    requires terms { length words.now ≤ length terms.now }
    requires words { AreWordsOf gates.old words.now }
    requires wide { AreWide terms.now words.now }
    ensures len { IfOk result (λ w. length w ≡ (result_shape op (shape_at terms.now left.0)).width) }
    ensures word { IfOk result (λ w. IsWordOf gates.new w) }
    ensures value { IfOk result (λ w. (A : ℕ → Bool) (V : ℕ → ℤ) → Agrees A gates.new → Give A terms.now words.now V → word_value A (result_shape op (shape_at terms.now left.0)).signed w ≡ binary_value (shape_at terms.now left.0) (shape_at terms.now right.0) op (V left.0) (V right.0)) }
    ensures grows { Grows gates.old gates.new }
{
    let (a, s) = operand(terms, words, left);
    let (b, r) = operand(terms, words, right);
    let word = binary(alloc, gates, op, a, b, s, r)?;
    Ok(word)
}

/// The word of the truth of an operation on two terms fitting.
fn fits_term(
    alloc: Global,
    gates: &mut Gates,
    terms: &Terms,
    words: &Words,
    op: BinaryOp,
    left: TermId,
    right: TermId,
) -> Result<Word, NoMemory>
    requires left { left.0 < length words.now }
    requires right { right.0 < length words.now }
    requires shapes { OperandsFit op (shape_at terms.now left.0) (shape_at terms.now right.0) }
    requires terms { length words.now ≤ length terms.now }
    requires words { AreWordsOf gates.old words.now }
    requires wide { AreWide terms.now words.now }
    ensures len { IfOk result (λ w. length w ≡ 1) }
    ensures word { IfOk result (λ w. IsWordOf gates.new w) }
    ensures value { IfOk result (λ w. (A : ℕ → Bool) (V : ℕ → ℤ) → Agrees A gates.new → Give A terms.now words.now V → word_value A false w ≡ truth (fits_value (shape_at terms.now left.0) (shape_at terms.now right.0) op (V left.0) (V right.0))) }
    ensures grows { Grows gates.old gates.new }
{
    let (a, s) = operand(terms, words, left);
    let (b, r) = operand(terms, words, right);
    let lit = fits(alloc, gates, op, a, b, s, r)?;
    let word = truth_word(alloc, lit)?;
    Ok(word)
}

/// The word of one of two terms, chosen by a truth.
fn select_term(
    alloc: Global,
    gates: &mut Gates,
    terms: &Terms,
    words: &Words,
    test: TermId,
    yes: TermId,
    no: TermId,
) -> Result<Word, NoMemory>
    requires test { IsOperand terms.now (length words.now) one_bit test }
    requires yes { yes.0 < length words.now }
    requires no { IsOperand terms.now (length words.now) (shape_at terms.now yes.0) no }
    requires terms { length words.now ≤ length terms.now }
    requires words { AreWordsOf gates.old words.now }
    requires wide { AreWide terms.now words.now }
    ensures len { IfOk result (λ w. length w ≡ (shape_at terms.now yes.0).width) }
    ensures word { IfOk result (λ w. IsWordOf gates.new w) }
    ensures value { IfOk result (λ w. (A : ℕ → Bool) (V : ℕ → ℤ) → Agrees A gates.new → Give A terms.now words.now V → word_value A (shape_at terms.now yes.0).signed w ≡ (if int_eq (V test.0) (pos 0) then V no.0 else V yes.0)) }
    ensures grows { Grows gates.old gates.new }
{
    let (choice, _) = operand(terms, words, test);
    let (a, _) = operand(terms, words, yes);
    let (b, _) = operand(terms, words, no);
    let word = select(alloc, gates, literal(choice), a, b)?;
    Ok(word)
}

/// The word of a term's number in another shape.
fn convert_term(
    alloc: Global,
    gates: &mut Gates,
    terms: &Terms,
    words: &Words,
    shape: Shape,
    of: TermId,
) -> Result<Word, NoMemory>
    requires within { of.0 < length words.now }
    requires terms { length words.now ≤ length terms.now }
    requires words { AreWordsOf gates.old words.now }
    requires wide { AreWide terms.now words.now }
    ensures len { IfOk result (λ w. length w ≡ shape.width) }
    ensures word { IfOk result (λ w. IsWordOf gates.new w) }
    ensures value { IfOk result (λ w. (A : ℕ → Bool) (V : ℕ → ℤ) → Agrees A gates.new → Give A terms.now words.now V → word_value A shape.signed w ≡ wrap_to shape (V of.0)) }
    ensures grows { Grows gates.old gates.new }
{
    let (a, own) = operand(terms, words, of);
    let word = resize(alloc, gates, a, own.signed, shape.width as usize)?;
    Ok(word)
}

/// The word of a term that is made of the given, from those of the terms before it.
pub(crate) fn word_of_kind(
    alloc: Global,
    gates: &mut Gates,
    terms: &Terms,
    words: &Words,
    vars: &Words,
    shape: Shape,
    kind: TermKind,
) -> Result<Word, NoMemory>
    requires shape { IsShape shape }
    requires kind { IsKindAt terms.now (length words.now) shape kind }
    requires terms { length words.now ≤ length terms.now }
    requires words { AreWordsOf gates.old words.now }
    requires wide { AreWide terms.now words.now }
    requires vars { AreWordsOf gates.old vars.now }
    ensures len { IfOk result (λ w. length w ≡ shape.width) }
    ensures word { IfOk result (λ w. IsWordOf gates.new w) }
    ensures value { IfOk result (λ w. (A : ℕ → Bool) (V : ℕ → ℤ) → Agrees A gates.new → Give A terms.now words.now V → word_value A shape.signed w ≡ kind_value (numbers A vars.now) V terms.now shape kind) }
    ensures grows { Grows gates.old gates.new }
{
    match kind {
        TermKind::Constant { number } => {
            let word = constant(alloc, gates, shape, number)?;
            Ok(word)
        }
        TermKind::Variable { number } => {
            let word = variable(alloc, gates, vars, shape, number)?;
            Ok(word)
        }
        TermKind::Unary { op, of } => {
            let word = unary_term(alloc, gates, terms, words, op, of)?;
            Ok(word)
        }
        TermKind::Binary { op, left, right } => {
            let word = binary_term(alloc, gates, terms, words, op, left, right)?;
            Ok(word)
        }
        TermKind::Fits { op, left, right } => {
            let word = fits_term(alloc, gates, terms, words, op, left, right)?;
            Ok(word)
        }
        TermKind::Select { test, yes, no } => {
            let word = select_term(alloc, gates, terms, words, test, yes, no)?;
            Ok(word)
        }
        TermKind::Convert { of } => {
            let word = convert_term(alloc, gates, terms, words, shape, of)?;
            Ok(word)
        }
    }
}

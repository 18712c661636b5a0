//! Assignments and steps (C11 6.5.16, 6.5.2.4, 6.5.3.1).

ghost use Rattle.std.specs.Prelude.{◌≡◌, not, IfOk};
ghost use Rattle.c_kinds.specs.declared.answer.Answer.TheVariants.{Gives};
ghost use Rattle.c_kinds.specs.declared.typed.Fixed.TheVariants.{Varies};
ghost use Rattle.c_kinds.specs.Casts as spec;
ghost use Rattle.c_kinds.specs.Types as types;
ghost use Rattle.c_kinds.specs.Values as values;
ghost use Rattle.c_kinds.specs.Values.{unless};
ghost use Rattle.c_operators.specs.Told.{IsCounted, layout_at};

use crate::Given;
use crate::moves::needs_cells;
use crate::two_operands::binary;
use crate::values::{unqualified_copy, value, value_typed};
use c_arithmetic::{alike, has_const, is_array, is_rows, shape_of};
use c_kinds::{Answer, CType, Fixed, Shape, Typed};
use c_tree::{AssignOperator, BinaryOperator};
use kv_base::{Copied, NoMemory};

/// Whether an expression is a modifiable lvalue (6.3.2.1p1).
fn is_writable(given: &Given, x: &Typed) -> bool
    ensures { result ≡ spec.is_writable (layout_at given.now) x.now }
{
    x.is_place && !(is_array(&x.ctype) || has_const(given.names.structs.as_slice(), &x.ctype))
}

/// The plain operator of a compound assignment (6.5.16.2p3).
fn plain_operator(operator: AssignOperator) -> Option<BinaryOperator>
    ensures { result ≡ spec.plain_operator operator }
{
    match operator {
        AssignOperator::Plain => None,
        AssignOperator::Multiply => Some(BinaryOperator::Multiply),
        AssignOperator::Divide => Some(BinaryOperator::Divide),
        AssignOperator::Remainder => Some(BinaryOperator::Remainder),
        AssignOperator::Add => Some(BinaryOperator::Add),
        AssignOperator::Subtract => Some(BinaryOperator::Subtract),
        AssignOperator::ShiftLeft => Some(BinaryOperator::ShiftLeft),
        AssignOperator::ShiftRight => Some(BinaryOperator::ShiftRight),
        AssignOperator::BitAnd => Some(BinaryOperator::BitAnd),
        AssignOperator::BitXor => Some(BinaryOperator::BitXor),
        AssignOperator::BitOr => Some(BinaryOperator::BitOr),
    }
}

/// An operator's result from the old value of a target and a value.
fn computed(
    given: &Given,
    operator: BinaryOperator,
    at: usize,
    target: &Typed,
    v: &Typed,
) -> Result<Answer, NoMemory>
    requires { IsCounted (layout_at given.now) }
    ensures { IfOk result (λ answer. answer ≡ spec.assigned (layout_at given.now) (Some operator) at target.now v.now) }
{
    match value(given, target)? {
        Answer::Gives { typed } => {
            let answer = binary(given, operator, at, &typed, v)?;
            Ok(answer)
        }
        answer => Ok(answer),
    }
}

/// What is assigned: a value, or an operator's result from the old value of the target and it.
fn assigned(
    given: &Given,
    operator: AssignOperator,
    at: usize,
    target: &Typed,
    v: &Typed,
) -> Result<Answer, NoMemory>
    requires { IsCounted (layout_at given.now) }
    ensures { IfOk result (λ answer. answer ≡ spec.assigned (layout_at given.now) (spec.plain_operator operator) at target.now v.now) }
{
    match plain_operator(operator) {
        None => {
            let typed = v.copy(given.alloc)?;
            Ok(Answer::Gives { typed })
        }
        Some(operator) => {
            let answer = computed(given, operator, at, target, v)?;
            Ok(answer)
        }
    }
}

/// What a target is after it is written, which it may be or not.
fn written(given: &Given, at: usize, target: &Typed, v: &Typed) -> Result<Answer, NoMemory>
    ensures { IfOk result (λ answer. answer ≡ unless (not (spec.is_writable (layout_at given.now) target.now)) 14 at (Gives (values.result (types.unqualified target.now.ctype) Varies at v.now.ends_at))) }
{
    if !is_writable(given, target) {
        return Ok(Answer::Breaks { rule: 14, at });
    }
    let ctype = unqualified_copy(given.alloc, &target.ctype)?;
    Ok(Answer::Gives {
        typed: value_typed(ctype, Fixed::Varies, at, v.ends_at),
    })
}

/// An assignment of a value to a target: first what the operator's operands break, then whether the target may be
/// written.
pub fn assign(
    given: &Given,
    operator: AssignOperator,
    at: usize,
    target: &Typed,
    v: &Typed,
) -> Result<Answer, NoMemory>
    requires { IsCounted (layout_at given.now) }
    ensures { IfOk result (λ answer. answer ≡ spec.assign_answer (layout_at given.now) operator at target.now v.now) }
{
    match assigned(given, operator, at, target, v)? {
        Answer::Gives { .. } => {
            let answer = written(given, at, target, v)?;
            Ok(answer)
        }
        answer => Ok(answer),
    }
}

/// Whether a value of the second shape may be assigned to an object of a type of the first one (6.5.16.1p1).
fn fits_by(to: Shape, from: Shape, ctype: &CType, v: &Typed) -> bool
    ensures { result ≡ spec.fits_by to from ctype.now v.now }
{
    match (to, from) {
        (Shape::Integer { .. }, Shape::Integer { .. }) => true,
        (Shape::Pointer, Shape::Integer { .. }) => v.is_null,
        (Shape::Pointer, Shape::Pointer) => alike(ctype, &v.ctype) || v.is_null,
        (Shape::Struct { number: first }, Shape::Struct { number: second }) => first == second,
        _ => false,
    }
}

/// Whether a value may be assigned to an object of the type (6.5.16.1p1).
pub fn fits(ctype: &CType, v: &Typed) -> bool
    ensures { result ≡ spec.fits ctype.now v.now }
{
    fits_by(shape_of(ctype), shape_of(&v.ctype), ctype, v)
}

/// Whether what is assigned doesn't fit the target. The assignment has its type nevertheless.
pub fn assigns_misfit(
    given: &Given,
    operator: AssignOperator,
    at: usize,
    target: &Typed,
    v: &Typed,
) -> Result<bool, NoMemory>
    requires { IsCounted (layout_at given.now) }
    ensures { IfOk result (λ found. found ≡ spec.assigns_misfit (layout_at given.now) operator at target.now v.now) }
{
    match assigned(given, operator, at, target, v)? {
        Answer::Gives { typed } => Ok(!fits(&target.ctype, &typed)),
        _ => Ok(false),
    }
}

/// A step of an expression that may be written or not: its value has the type.
fn stepped(given: &Given, at: usize, ends_at: usize, x: &Typed) -> Result<Answer, NoMemory>
    ensures { IfOk result (λ answer. answer ≡ unless (not (spec.is_writable (layout_at given.now) x.now)) 14 at (Gives (values.result (types.unqualified x.now.ctype) Varies x.now.named_at ends_at))) }
{
    if !is_writable(given, x) {
        return Ok(Answer::Breaks { rule: 14, at });
    }
    let ctype = unqualified_copy(given.alloc, &x.ctype)?;
    Ok(Answer::Gives {
        typed: value_typed(ctype, Fixed::Varies, x.named_at, ends_at),
    })
}

/// The answer, unless the operand is none of `++` and `--`: they take an integer, or a pointer that is moved.
fn steps(given: &Given, at: usize, x: &Typed, answer: Answer) -> Answer
    ensures { result ≡ spec.steps (layout_at given.now) at (types.shape_of x.now.ctype) x.now answer }
{
    match shape_of(&x.ctype) {
        Shape::Integer { .. } => answer,
        Shape::Pointer => needs_cells(given, at, x, answer),
        Shape::Array { .. } => {
            if is_rows(&x.ctype) {
                Answer::Breaks {
                    rule: 9,
                    at: x.named_at,
                }
            } else {
                answer
            }
        }
        _ => Answer::Breaks { rule: 12, at },
    }
}

/// `++` or `--` before or behind an expression.
pub fn step(given: &Given, at: usize, ends_at: usize, x: &Typed) -> Result<Answer, NoMemory>
    ensures { IfOk result (λ answer. answer ≡ spec.step_answer (layout_at given.now) at ends_at x.now) }
{
    let answer = stepped(given, at, ends_at, x)?;
    Ok(steps(given, at, x, answer))
}

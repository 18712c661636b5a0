//! Operators with two operands, each a value (C11 6.5.5 to 6.5.14): `x` stands before the operator, `y` after it.

ghost use Rattle.std.specs.Prelude.{◌≡◌, IfOk};
ghost use Rattle.c_kinds.specs.Operands as spec;
ghost use Rattle.c_operators.specs.Told.{IsCounted, layout_at};

use crate::Given;
use crate::moves::{moved_by, needs_cells};
use crate::values::value_typed;
use c_arithmetic::{alike, binary_value, integer, promoted, shape_of, usual};
use c_kinds::{Answer, Family, Fixed, Shape, Typed};
use c_tree::BinaryOperator;
use kv_base::{Copied, NoMemory};
use kv_num::IntType;
use std::alloc::Global;

/// The family of an operator.
fn family(operator: BinaryOperator) -> Family
    ensures { result ≡ spec.family operator }
{
    match operator {
        BinaryOperator::Multiply
        | BinaryOperator::Divide
        | BinaryOperator::Remainder
        | BinaryOperator::BitAnd
        | BinaryOperator::BitXor
        | BinaryOperator::BitOr => Family::OnIntegers,
        BinaryOperator::Add | BinaryOperator::Subtract => Family::Additive,
        BinaryOperator::ShiftLeft | BinaryOperator::ShiftRight => Family::Shift,
        BinaryOperator::Less
        | BinaryOperator::Greater
        | BinaryOperator::LessEqual
        | BinaryOperator::GreaterEqual => Family::Relational,
        BinaryOperator::Equal | BinaryOperator::NotEqual => Family::Equality,
        BinaryOperator::LogicalAnd | BinaryOperator::LogicalOr => Family::Logical,
    }
}

/// The type in which an operation on two integers is done (6.5.7p3, 6.3.1.8).
fn operation_type(family: Family, left: IntType, right: IntType) -> IntType
    ensures { result ≡ spec.operation_type family left right }
{
    match family {
        Family::Shift => promoted(left),
        _ => usual(left, right),
    }
}

/// The type of the result: comparisons and truths are ints (6.5.8p6, 6.5.9p3, 6.5.13p3).
fn result_type(family: Family, left: IntType, right: IntType) -> IntType
    ensures { result ≡ spec.result_type family left right }
{
    match family {
        Family::Relational | Family::Equality | Family::Logical => IntType::Int,
        _ => operation_type(family, left, right),
    }
}

/// An operator on integers of these types.
fn two_integers(
    alloc: Global,
    operator: BinaryOperator,
    at: usize,
    left: IntType,
    right: IntType,
    x: &Typed,
    y: &Typed,
) -> Answer
    ensures { result ≡ spec.two_integers operator at left right x.now y.now }
{
    let family = family(operator);
    let ctype = integer(alloc, result_type(family, left, right));
    let kind = operation_type(family, left, right);
    let fixed = binary_value(operator, kind, x.fixed, y.fixed);
    Answer::Gives {
        typed: value_typed(ctype, fixed, at, y.ends_at),
    }
}

/// A comparison or a truth of pointers, which is no constant.
fn truth_at(alloc: Global, at: usize, y: &Typed) -> Answer
    ensures { result ≡ spec.truth_at at y.now }
{
    Answer::Gives {
        typed: value_typed(integer(alloc, IntType::Int), Fixed::Varies, at, y.ends_at),
    }
}

/// A pointer `p` that is moved by an integer `n`; `y` is the later one of them (6.5.6p8).
fn moved_pointer(
    given: &Given,
    operator: BinaryOperator,
    at: usize,
    p: &Typed,
    n: &Typed,
    y: &Typed,
) -> Result<Answer, NoMemory>
    requires { IsCounted (layout_at given.now) }
    ensures { IfOk result (λ answer. answer ≡ spec.pointer_and_integer (layout_at given.now) operator at Family.Additive p.now n.now y.now) }
{
    let ctype = p.ctype.copy(given.alloc)?;
    let fixed = moved_by(given, operator, &p.ctype, p.fixed, n.fixed);
    let typed = value_typed(ctype, fixed, at, y.ends_at);
    Ok(needs_cells(given, at, p, Answer::Gives { typed }))
}

/// An operator of this family on a pointer `p` and an integer `n`, in any order; `y` is the later one (6.5.6p2,
/// 6.5.9p2).
fn pointer_and_integer(
    given: &Given,
    operator: BinaryOperator,
    at: usize,
    p: &Typed,
    n: &Typed,
    y: &Typed,
) -> Result<Answer, NoMemory>
    requires { IsCounted (layout_at given.now) }
    ensures { IfOk result (λ answer. answer ≡ spec.pointer_and_integer (layout_at given.now) operator at (spec.family operator) p.now n.now y.now) }
{
    match family(operator) {
        Family::Additive => {
            let answer = moved_pointer(given, operator, at, p, n, y)?;
            Ok(answer)
        }
        Family::Equality if n.is_null => Ok(truth_at(given.alloc, at, y)),
        Family::Logical => Ok(truth_at(given.alloc, at, y)),
        _ => Ok(Answer::Breaks { rule: 12, at }),
    }
}

/// Whether two pointers fit each other, or one of them is a null pointer constant (6.5.9p2).
fn are_comparable(x: &Typed, y: &Typed) -> bool
    ensures { result ≡ spec.are_comparable x.now y.now }
{
    alike(&x.ctype, &y.ctype) || (x.is_null || y.is_null)
}

/// An operator of this family on two pointers.
fn two_pointers(alloc: Global, at: usize, family: Family, x: &Typed, y: &Typed) -> Answer
    ensures { result ≡ spec.two_pointers at family x.now y.now }
{
    match family {
        Family::Equality => {
            if are_comparable(x, y) {
                truth_at(alloc, at, y)
            } else {
                Answer::Breaks { rule: 12, at }
            }
        }
        Family::Logical => truth_at(alloc, at, y),
        _ => Answer::Breaks { rule: 12, at },
    }
}

/// An operator on an integer and a pointer: no pointer is subtracted from an integer (6.5.6p3).
fn integer_and_pointer(
    given: &Given,
    operator: BinaryOperator,
    at: usize,
    x: &Typed,
    y: &Typed,
) -> Result<Answer, NoMemory>
    requires { IsCounted (layout_at given.now) }
    ensures { IfOk result (λ answer. answer ≡ spec.integer_and_pointer (layout_at given.now) operator at x.now y.now) }
{
    match operator {
        BinaryOperator::Subtract => Ok(Answer::Breaks { rule: 12, at }),
        _ => {
            let answer = pointer_and_integer(given, operator, at, y, x, y)?;
            Ok(answer)
        }
    }
}

/// An operator on two values.
pub fn binary(
    given: &Given,
    operator: BinaryOperator,
    at: usize,
    x: &Typed,
    y: &Typed,
) -> Result<Answer, NoMemory>
    requires { IsCounted (layout_at given.now) }
    ensures { IfOk result (λ answer. answer ≡ spec.binary_answer (layout_at given.now) operator at x.now y.now) }
{
    match (shape_of(&x.ctype), shape_of(&y.ctype)) {
        (Shape::Integer { kind: left }, Shape::Integer { kind: right }) => {
            Ok(two_integers(given.alloc, operator, at, left, right, x, y))
        }
        (Shape::Pointer, Shape::Integer { .. }) => {
            let answer = pointer_and_integer(given, operator, at, x, y, y)?;
            Ok(answer)
        }
        (Shape::Integer { .. }, Shape::Pointer) => {
            let answer = integer_and_pointer(given, operator, at, x, y)?;
            Ok(answer)
        }
        (Shape::Pointer, Shape::Pointer) => {
            Ok(two_pointers(given.alloc, at, family(operator), x, y))
        }
        _ => Ok(Answer::Breaks { rule: 12, at }),
    }
}

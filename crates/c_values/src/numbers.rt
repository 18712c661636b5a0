//! Arithmetic on integers, with its checks (C11 6.5.3.3, 6.5.5 to 6.5.14).

ghost use Rattle.std.specs.Prelude.{◌≡◌, ◌<◌, ◌↔◌, ◌&&◌, ℤ, pos, ◌+ℤ◌, ◌-ℤ◌, ◌*ℤ◌, unsigned_abs, IsTrue};
ghost use Rattle.kv_num.specs.IntType.{InRange, signed_of, width_of, wrap_of};
ghost use Rattle.kv_num.specs.Shift.{left_of, right_of};
ghost use Rattle.c_kinds.specs.Integers.{is_in_range};
ghost use Rattle.c_kinds.specs.Operands.{family, operation_type};
ghost use Rattle.c_rules.specs.declared.checks.CheckKind.TheVariants.{Division, Shift as ShiftDistance};
ghost use Rattle.c_model.specs.declared.values.Outcome.TheVariants.{Gives, Unmet};
ghost use Rattle.c_model.specs.declared.values.Scalar.TheVariants.{Number};
ghost use Rattle.c_model.specs.Arithmetic as spec;
ghost use Rattle.c_model.specs.Values as values;
ghost use Rattle.c_values.specs.Operands.{AreOperands};

use crate::scalars::{number_as, truth_of};
use c_arithmetic::{promoted, usual};
use c_model::{CheckKind, Checks, Outcome, Scalar};
use c_tree::{BinaryOperator, UnaryOperator};
use kv_num::{
    IntType, Num, add, bit_and, bit_not, bit_or, bit_xor, div, is_signed, mul, rem, shl, shr, sub,
    width,
};

/// Whether arithmetic in this type must fit it.
fn is_asked(checks: Checks, kind: IntType) -> bool
    ensures { result ≡ spec.is_asked checks kind }
{
    if is_signed(kind) {
        checks.signed_overflow
    } else {
        checks.unsigned_overflow
    }
}

/// A number that an operator gives.
fn gives(value: i128) -> Outcome
    ensures { result ≡ Gives (Number value) }
{
    Outcome::Gives {
        value: Scalar::Number { value },
    }
}

/// A result, where it fits or needn't.
fn if_fitting(asked: bool, num: Num) -> Outcome
    ensures { result ≡ spec.if_fitting asked num.fits num.value }
{
    if !asked || num.fits {
        gives(num.value)
    } else {
        Outcome::Unmet {
            check: CheckKind::Overflow,
        }
    }
}

/// A result of arithmetic, where the exact one that is asked to fit does, or needn't.
#[tactic(auto, using(crate::proofs::Ranges::fitting_is))]
fn fitting(checks: Checks, kind: IntType, num: Num) -> Outcome
    ensures { (exact value : ℤ) → num.value ≡ value → IsTrue num.fits ↔ InRange kind exact → result ≡ spec.if_fitting (spec.is_asked checks kind) (is_in_range kind exact) value }
{
    if_fitting(is_asked(checks, kind), num)
}

/// A sum (6.5.6).
fn sum(checks: Checks, kind: IntType, a: i128, b: i128) -> Outcome
    requires left { InRange kind a }
    requires right { InRange kind b }
    ensures { result ≡ spec.wrapped checks kind (a +ℤ b) }
{
    fitting(checks, kind, add(kind, a, b))
}

/// A difference (6.5.6).
fn difference(checks: Checks, kind: IntType, a: i128, b: i128) -> Outcome
    requires left { InRange kind a }
    requires right { InRange kind b }
    ensures { result ≡ spec.wrapped checks kind (a -ℤ b) }
{
    fitting(checks, kind, sub(kind, a, b))
}

/// A product (6.5.5).
fn product(checks: Checks, kind: IntType, a: i128, b: i128) -> Outcome
    requires left { InRange kind a }
    requires right { InRange kind b }
    ensures { result ≡ spec.wrapped checks kind (a *ℤ b) }
{
    fitting(checks, kind, mul(kind, a, b))
}

/// What a division by 0 gives (6.5.5p5).
fn by_zero() -> Outcome
    ensures { result ≡ Unmet Division }
{
    Outcome::Unmet {
        check: CheckKind::Division,
    }
}

/// A quotient, truncated toward zero (6.5.5p5, p6).
fn quotient(checks: Checks, kind: IntType, a: i128, b: i128) -> Outcome
    requires left { InRange kind a }
    requires right { InRange kind b }
    ensures { result ≡ spec.quotient checks kind a b }
{
    if b == 0 {
        return by_zero();
    }
    fitting(checks, kind, div(kind, a, b))
}

/// A remainder, which is asked to fit where its quotient is (6.5.5p6).
fn remainder(checks: Checks, kind: IntType, a: i128, b: i128) -> Outcome
    requires left { InRange kind a }
    requires right { InRange kind b }
    ensures { result ≡ spec.remainder checks kind a b }
{
    if b == 0 {
        return by_zero();
    }
    fitting(checks, kind, rem(kind, a, b))
}

/// Whether a number that is shifted left must fit: of a signed type alone (6.5.7p4).
fn is_shift_asked(checks: Checks, kind: IntType) -> bool
    ensures { result ≡ (signed_of kind && checks.signed_overflow) }
{
    is_signed(kind) && checks.signed_overflow
}

/// A number shifted left by less than the width of its type (6.5.7p4).
#[tactic(auto, using(crate::proofs::Ranges::raised_is))]
fn raised(checks: Checks, kind: IntType, a: i128, distance: u32) -> Outcome
    requires range { InRange kind a }
    requires distance { distance < width_of kind }
    ensures { result ≡ spec.shifted_left checks kind a (left_of a distance) }
{
    let num = shl(kind, a, distance);
    if_fitting(is_shift_asked(checks, kind), num)
}

/// What a shift by a distance below 0, or of the width or more, gives (6.5.7p3).
fn too_far() -> Outcome
    ensures { result ≡ Unmet ShiftDistance }
{
    Outcome::Unmet {
        check: CheckKind::Shift,
    }
}

/// A number shifted left (6.5.7p3, p4).
fn shifted_left(checks: Checks, kind: IntType, a: i128, distance: i128) -> Outcome
    requires { InRange kind a }
    ensures { result ≡ spec.at_distance kind distance (spec.shifted_left checks kind a (left_of a (unsigned_abs distance))) }
{
    if distance < 0 || distance >= i128::from(width(kind)) {
        return too_far();
    }
    raised(checks, kind, a, distance as u32)
}

/// A number shifted right (6.5.7p3, p5).
fn shifted_right(kind: IntType, a: i128, distance: i128) -> Outcome
    requires { InRange kind a }
    ensures { result ≡ spec.at_distance kind distance (Gives (Number (right_of a (unsigned_abs distance)))) }
{
    if distance < 0 || distance >= i128::from(width(kind)) {
        return too_far();
    }
    gives(shr(kind, a, distance as u32))
}

/// A truth that an operator gives.
fn truth(holds: bool) -> Outcome
    ensures { result ≡ Gives (values.truth_of holds) }
{
    Outcome::Gives {
        value: truth_of(holds),
    }
}

/// An operator on two numbers of the type in which it works; a shift's distance has a type of its own.
fn operation(checks: Checks, operator: BinaryOperator, kind: IntType, a: i128, b: i128) -> Outcome
    requires { AreOperands operator kind a b }
    ensures { result ≡ spec.operation checks operator kind a b }
{
    match operator {
        BinaryOperator::Add => sum(checks, kind, a, b),
        BinaryOperator::Subtract => difference(checks, kind, a, b),
        BinaryOperator::Multiply => product(checks, kind, a, b),
        BinaryOperator::Divide => quotient(checks, kind, a, b),
        BinaryOperator::Remainder => remainder(checks, kind, a, b),
        BinaryOperator::ShiftLeft => shifted_left(checks, kind, a, b),
        BinaryOperator::ShiftRight => shifted_right(kind, a, b),
        BinaryOperator::BitAnd => gives(bit_and(kind, a, b)),
        BinaryOperator::BitXor => gives(bit_xor(kind, a, b)),
        BinaryOperator::BitOr => gives(bit_or(kind, a, b)),
        BinaryOperator::Less => truth(a < b),
        BinaryOperator::Greater => truth(a > b),
        BinaryOperator::LessEqual => truth(a <= b),
        BinaryOperator::GreaterEqual => truth(a >= b),
        BinaryOperator::Equal => truth(a == b),
        BinaryOperator::NotEqual => truth(a != b),
        BinaryOperator::LogicalOr => truth(a != 0 || b != 0),
        BinaryOperator::LogicalAnd => truth(a != 0 && b != 0),
    }
}

/// The type in which an operation on two integers is done: that of a shift is the promoted left operand's (6.5.7p3).
pub fn operation_type(operator: BinaryOperator, left: IntType, right: IntType) -> IntType
    ensures { result ≡ operation_type (family operator) left right }
{
    match operator {
        BinaryOperator::ShiftLeft | BinaryOperator::ShiftRight => promoted(left),
        _ => usual(left, right),
    }
}

/// The type to which the right operand is converted: a shift promotes each operand for itself (6.5.7p3).
fn right_type(operator: BinaryOperator, left: IntType, right: IntType) -> IntType
    ensures { result ≡ spec.right_type (family operator) left right }
{
    match operator {
        BinaryOperator::ShiftLeft | BinaryOperator::ShiftRight => promoted(right),
        _ => usual(left, right),
    }
}

/// An operator on two operands of these integer types, which are converted first (6.3.1.8).
pub fn on_numbers(
    checks: Checks,
    operator: BinaryOperator,
    left_kind: IntType,
    right_kind: IntType,
    left: Scalar,
    right: Scalar,
) -> Outcome
    ensures { result ≡ spec.on_numbers checks operator left_kind right_kind left right }
{
    let kind = operation_type(operator, left_kind, right_kind);
    let other = right_type(operator, left_kind, right_kind);
    operation(
        checks,
        operator,
        kind,
        number_as(kind, left),
        number_as(other, right),
    )
}

/// `-` before an operand of a promoted type: 0 less the number (6.5.3.3p3).
fn negated(checks: Checks, kind: IntType, a: i128) -> Outcome
    requires { InRange kind a }
    ensures { result ≡ spec.wrapped checks kind (pos 0 -ℤ a) }
{
    fitting(checks, kind, sub(kind, 0, a))
}

/// `+ - ~` before an operand of an integer type (6.5.3.3); another operator gives the operand.
pub fn on_number(checks: Checks, operator: UnaryOperator, kind: IntType, operand: Scalar) -> Outcome
    ensures { result ≡ spec.on_number checks operator kind operand }
{
    let own = promoted(kind);
    match operator {
        UnaryOperator::Plus => gives(number_as(own, operand)),
        UnaryOperator::Minus => negated(checks, own, number_as(own, operand)),
        UnaryOperator::Complement => gives(bit_not(own, number_as(own, operand))),
        _ => Outcome::Gives { value: operand },
    }
}

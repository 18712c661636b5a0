//! Values of integer constant expressions (C11 6.6).

ghost use Rattle.std.specs.Prelude.{◌≡◌, ◌≢◌, ◌<◌, ◌↔◌, ℤ, pos, neg_ℤ, ◌+ℤ◌, ◌-ℤ◌, ◌*ℤ◌, unsigned_abs, IsTrue};
ghost use Rattle.kv_num.specs.declared.types.IntType.{IntType};
ghost use Rattle.kv_num.specs.IntType.{InRange, width_of, wrap_of};
ghost use Rattle.kv_num.specs.Quotient.{quotient_of, remainder_of};
ghost use Rattle.kv_num.specs.Shift.{right_of};
ghost use Rattle.c_kinds.specs.declared.typed.Fixed.TheVariants.{NoValue, Number};
ghost use Rattle.c_kinds.specs.Constants as spec;
ghost use Rattle.c_kinds.specs.Integers.{truth};
ghost use Rattle.c_arithmetic.specs.Ranges.{AreOperands, IsOperand};

use crate::integers::truth;
use c_kinds::Fixed;
use c_tree::{BinaryOperator, UnaryOperator};
use kv_num::{
    IntType, Num, add, bit_and, bit_not, bit_or, bit_xor, div, is_signed, mul, rem, shl, shr, sub,
    width, wrap,
};

/// Whether a constant is the integer 0.
pub fn is_zero(fixed: Fixed) -> bool
    ensures { result ≡ spec.is_zero fixed }
{
    match fixed {
        Fixed::Number { value } => value == 0,
        _ => false,
    }
}

/// Whether a number is true (6.5.13p3).
pub(crate) fn is_true(n: i128) -> bool
    ensures { result ≡ spec.is_true n }
{
    n != 0
}

/// The `int` of a truth as a constant.
fn truth_value(holds: bool) -> Fixed
    ensures { result ≡ Number (truth holds) }
{
    Fixed::Number {
        value: truth(holds),
    }
}

/// A result as a constant: that of signed arithmetic has a value only where it fits (6.5p5).
#[tactic(auto, using(crate::proofs::Numbers::computed_is))]
fn computed(kind: IntType, num: Num) -> Fixed
    ensures { (n : ℤ) → num.value ≡ wrap_of kind n → IsTrue num.fits ↔ InRange kind n → result ≡ spec.computed kind n }
{
    if is_signed(kind) && !num.fits {
        return Fixed::NoValue;
    }
    Fixed::Number { value: num.value }
}

/// A sum (6.5.6).
fn sum(kind: IntType, a: i128, b: i128) -> Fixed
    requires left { InRange kind a }
    requires right { InRange kind b }
    ensures { result ≡ spec.computed kind (a +ℤ b) }
{
    computed(kind, add(kind, a, b))
}

/// A difference (6.5.6).
fn difference(kind: IntType, a: i128, b: i128) -> Fixed
    requires left { InRange kind a }
    requires right { InRange kind b }
    ensures { result ≡ spec.computed kind (a -ℤ b) }
{
    computed(kind, sub(kind, a, b))
}

/// A product (6.5.5).
fn product(kind: IntType, a: i128, b: i128) -> Fixed
    requires left { InRange kind a }
    requires right { InRange kind b }
    ensures { result ≡ spec.computed kind (a *ℤ b) }
{
    computed(kind, mul(kind, a, b))
}

/// The result of a division by another number than 0 as a constant (6.5.5p5, p6). It has a value where the quotient
/// fits.
#[tactic(auto, using(crate::proofs::Divisions::divided_is))]
fn divided(num: Num) -> Fixed
    ensures { (k : IntType) (a b r : ℤ) → b ≢ pos 0 → num.value ≡ wrap_of k r → IsTrue num.fits ↔ InRange k (quotient_of a b) → result ≡ spec.divided k a b r }
{
    if num.fits {
        Fixed::Number { value: num.value }
    } else {
        Fixed::NoValue
    }
}

/// A quotient (6.5.5p5, p6).
#[tactic(auto, using(crate::proofs::Divisions::divided_by_zero))]
fn quotient(kind: IntType, a: i128, b: i128) -> Fixed
    requires left { InRange kind a }
    requires right { InRange kind b }
    ensures { result ≡ spec.divided kind a b (quotient_of a b) }
{
    if b == 0 {
        Fixed::NoValue
    } else {
        divided(div(kind, a, b))
    }
}

/// A remainder (6.5.5p5, p6).
#[tactic(auto, using(crate::proofs::Divisions::divided_by_zero, crate::proofs::Divisions::remainder_wrapped))]
fn remainder(kind: IntType, a: i128, b: i128) -> Fixed
    requires left { InRange kind a }
    requires right { InRange kind b }
    ensures { result ≡ spec.divided kind a b (remainder_of a b) }
{
    if b == 0 {
        Fixed::NoValue
    } else {
        divided(rem(kind, a, b))
    }
}

/// A number shifted left by less than the width of its type (6.5.7p4).
fn raised(kind: IntType, a: i128, distance: u32) -> Fixed
    requires range { InRange kind a }
    requires distance { distance < width_of kind }
    ensures { result ≡ spec.shifted_left kind a distance }
{
    if a < 0 {
        return Fixed::NoValue;
    }
    computed(kind, shl(kind, a, distance))
}

/// A number shifted left (6.5.7p3, p4).
fn shifted_left(kind: IntType, a: i128, distance: i128) -> Fixed
    requires { InRange kind a }
    ensures { result ≡ spec.shifted kind distance (spec.shifted_left kind a (unsigned_abs distance)) }
{
    if distance < 0 || distance >= i128::from(width(kind)) {
        return Fixed::NoValue;
    }
    raised(kind, a, distance as u32)
}

/// A number shifted right (6.5.7p3, p5).
fn shifted_right(kind: IntType, a: i128, distance: i128) -> Fixed
    requires { InRange kind a }
    ensures { result ≡ spec.shifted kind distance (Number (right_of a (unsigned_abs distance))) }
{
    if distance < 0 || distance >= i128::from(width(kind)) {
        return Fixed::NoValue;
    }
    Fixed::Number {
        value: shr(kind, a, distance as u32),
    }
}

/// An operation on two numbers of the type in which it is done (6.5.5 to 6.5.14).
pub fn operation(operator: BinaryOperator, kind: IntType, a: i128, b: i128) -> Fixed
    requires { AreOperands operator kind a b }
    ensures { result ≡ spec.operation operator kind a b }
{
    match operator {
        BinaryOperator::LogicalOr => truth_value(is_true(a) || is_true(b)),
        BinaryOperator::LogicalAnd => truth_value(is_true(a) && is_true(b)),
        BinaryOperator::BitOr => Fixed::Number {
            value: bit_or(kind, a, b),
        },
        BinaryOperator::BitXor => Fixed::Number {
            value: bit_xor(kind, a, b),
        },
        BinaryOperator::BitAnd => Fixed::Number {
            value: bit_and(kind, a, b),
        },
        BinaryOperator::Equal => truth_value(a == b),
        BinaryOperator::NotEqual => truth_value(a != b),
        BinaryOperator::Less => truth_value(a < b),
        BinaryOperator::Greater => truth_value(a > b),
        BinaryOperator::LessEqual => truth_value(a <= b),
        BinaryOperator::GreaterEqual => truth_value(a >= b),
        BinaryOperator::ShiftLeft => shifted_left(kind, a, b),
        BinaryOperator::ShiftRight => shifted_right(kind, a, b),
        BinaryOperator::Add => sum(kind, a, b),
        BinaryOperator::Subtract => difference(kind, a, b),
        BinaryOperator::Multiply => product(kind, a, b),
        BinaryOperator::Divide => quotient(kind, a, b),
        BinaryOperator::Remainder => remainder(kind, a, b),
    }
}

/// An operation on two numbers, which are converted to the type in which it is done; a shift's distance and the
/// operands of `&&` and `||` keep their own types.
pub fn in_type(operator: BinaryOperator, kind: IntType, a: i128, b: i128) -> Fixed
    ensures { result ≡ spec.in_type operator kind a b }
{
    match operator {
        BinaryOperator::LogicalOr | BinaryOperator::LogicalAnd => operation(operator, kind, a, b),
        BinaryOperator::ShiftLeft | BinaryOperator::ShiftRight => {
            operation(operator, kind, wrap(kind, a), b)
        }
        BinaryOperator::BitOr
        | BinaryOperator::BitXor
        | BinaryOperator::BitAnd
        | BinaryOperator::Equal
        | BinaryOperator::NotEqual
        | BinaryOperator::Less
        | BinaryOperator::Greater
        | BinaryOperator::LessEqual
        | BinaryOperator::GreaterEqual
        | BinaryOperator::Add
        | BinaryOperator::Subtract
        | BinaryOperator::Multiply
        | BinaryOperator::Divide
        | BinaryOperator::Remainder => operation(operator, kind, wrap(kind, a), wrap(kind, b)),
    }
}

/// An operation whose right operand has no value: the left one may decide (6.5.13p4, 6.5.14p4).
fn without_right(operator: BinaryOperator, a: i128) -> Fixed
    ensures { (k : IntType) → result ≡ spec.binary_value operator k (Number a) NoValue }
{
    match operator {
        BinaryOperator::LogicalOr if is_true(a) => Fixed::Number { value: 1 },
        BinaryOperator::LogicalAnd if !is_true(a) => Fixed::Number { value: 0 },
        _ => Fixed::NoValue,
    }
}

/// An operation on two constants: both are integers by their form, or the whole is none (6.6p3, p6).
pub fn binary_value(operator: BinaryOperator, kind: IntType, left: Fixed, right: Fixed) -> Fixed
    ensures { result ≡ spec.binary_value operator kind left right }
{
    match (left, right) {
        (Fixed::Number { value: a }, Fixed::Number { value: b }) => in_type(operator, kind, a, b),
        (Fixed::Number { value }, Fixed::NoValue) => without_right(operator, value),
        (Fixed::NoValue, Fixed::Number { .. } | Fixed::NoValue) => Fixed::NoValue,
        _ => Fixed::Varies,
    }
}

/// A number with the other sign (6.5.3.3p3).
#[tactic(auto, using(crate::proofs::Divisions::zero_in_range))]
fn negated(kind: IntType, a: i128) -> Fixed
    requires { InRange kind a }
    ensures { result ≡ spec.computed kind (neg_ℤ a) }
{
    computed(kind, sub(kind, 0, a))
}

/// An operation on a number of the type in which it is done (6.5.3.3).
pub fn unary_operation(operator: UnaryOperator, kind: IntType, a: i128) -> Fixed
    requires { IsOperand operator kind a }
    ensures { result ≡ spec.unary_operation operator kind a }
{
    match operator {
        UnaryOperator::Minus => negated(kind, a),
        UnaryOperator::Complement => Fixed::Number {
            value: bit_not(kind, a),
        },
        UnaryOperator::Not => truth_value(a == 0),
        _ => Fixed::Number { value: a },
    }
}

/// An operation on a constant, which is converted to the type in which it is done (6.5.3.3, 6.6p6).
pub fn unary_value(operator: UnaryOperator, kind: IntType, operand: Fixed) -> Fixed
    ensures { result ≡ spec.of_one operand (λ n. spec.unary_operation operator kind (wrap_of kind n)) }
{
    match operand {
        Fixed::Number { value } => unary_operation(operator, kind, wrap(kind, value)),
        Fixed::NoValue => Fixed::NoValue,
        _ => Fixed::Varies,
    }
}

/// The arm that is taken (6.5.15p4).
fn taken(test: i128, left: Fixed, right: Fixed) -> Fixed
    ensures { result ≡ spec.taken test left right }
{
    if is_true(test) { left } else { right }
}

/// A choice of integers: each operand is a constant by its form (6.6p3).
pub fn chosen_integer(test: Fixed, left: Fixed, right: Fixed) -> Fixed
    ensures { result ≡ spec.chosen_integer test left right }
{
    match (test, left, right) {
        (_, Fixed::Varies, _) | (_, _, Fixed::Varies) => Fixed::Varies,
        (Fixed::Number { value }, _, _) => taken(value, left, right),
        (Fixed::NoValue, _, _) => Fixed::NoValue,
        _ => Fixed::Varies,
    }
}

/// A choice of pointers: the arm that isn't taken may be anything (6.6p9).
pub fn chosen_pointer(test: Fixed, left: Fixed, right: Fixed) -> Fixed
    ensures { result ≡ spec.chosen_pointer test left right }
{
    match test {
        Fixed::Number { value } => taken(value, left, right),
        Fixed::NoValue => Fixed::NoValue,
        _ => Fixed::Varies,
    }
}

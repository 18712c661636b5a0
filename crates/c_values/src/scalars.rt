//! Scalars as numbers and pointers, and their conversions (C11 6.3).

ghost use Rattle.std.specs.Prelude.{◌≡◌, [], ◌∷◌, ◌&&◌, nat_eq, pos, IfOk};
ghost use Rattle.std.specs.Ordering.{int_eq};
ghost use Rattle.kv_num.specs.IntType.{InRange};
ghost use Rattle.c_kinds.specs.Integers.{truth};
ghost use Rattle.c_model.specs.Values as spec;

use c_arithmetic::converted;
use c_kinds::Shape;
use c_model::{Cells, Scalar};
use kv_base::NoMemory;
use kv_num::IntType;

/// An `int`: 1 for true and 0 for false (6.5.8p6).
pub fn truth_of(holds: bool) -> Scalar
    ensures { result ≡ spec.truth_of holds }
{
    if holds {
        Scalar::Number { value: 1 }
    } else {
        Scalar::Number { value: 0 }
    }
}

/// The scalar of a value of one cell, and 0 where there is none.
pub fn scalar_in(value: &[Scalar]) -> Scalar
    ensures { result ≡ spec.scalar_in value.now }
{
    match value {
        [] => Scalar::Number { value: 0 },
        [first, ..] => *first,
    }
}

/// The number of an integer's value, and 0 of a pointer.
pub fn number_in(scalar: Scalar) -> i128
    ensures { result ≡ spec.number_in scalar }
{
    match scalar {
        Scalar::Number { value } => value,
        _ => 0,
    }
}

/// Whether a scalar compares equal to 0: the number 0 or the null pointer (6.5.3.3p5).
pub fn is_zero(scalar: Scalar) -> bool
    ensures { result ≡ spec.is_zero scalar }
{
    match scalar {
        Scalar::Number { value } => value == 0,
        Scalar::Null => true,
        Scalar::Wild | Scalar::Inside { .. } => false,
    }
}

/// Whether the value of a test or an assertion is 0.
pub fn is_no(value: &[Scalar]) -> bool
    ensures { result ≡ spec.is_no value.now }
{
    is_zero(scalar_in(value))
}

/// A scalar as a pointer: the number 0 is a null pointer constant (6.3.2.3p3).
pub fn as_pointer(scalar: Scalar) -> Scalar
    ensures { result ≡ spec.as_pointer scalar }
{
    match scalar {
        Scalar::Number { .. } => Scalar::Null,
        _ => scalar,
    }
}

/// Whether two pointers are the same value (6.5.9p6).
pub fn same_pointer(left: Scalar, right: Scalar) -> bool
    ensures { result ≡ spec.same_pointer left right }
{
    match (left, right) {
        (Scalar::Null, Scalar::Null) | (Scalar::Wild, Scalar::Wild) => true,
        (
            Scalar::Inside { object, offset },
            Scalar::Inside {
                object: other,
                offset: at,
            },
        ) => object == other && offset == at,
        _ => false,
    }
}

/// 1 or 0, a number of every integer type.
#[tactic(auto, using(crate::proofs::Ranges::truth_in_range))]
fn truth_number(kind: IntType, holds: bool) -> i128
    ensures value { result ≡ truth holds }
    ensures range { InRange kind result }
{
    if holds { 1 } else { 0 }
}

/// A scalar as a number of an integer type (6.3.1.2, 6.3.1.3). It is in the range of the type.
pub fn number_as(kind: IntType, scalar: Scalar) -> i128
    ensures value { result ≡ spec.number_as kind scalar }
    ensures range { InRange kind result }
{
    match scalar {
        Scalar::Number { value } => converted(kind, value),
        _ => truth_number(kind, !is_zero(scalar)),
    }
}

/// A scalar as one of a type of this shape (6.3.1, 6.3.2.3).
pub fn scalar_as(shape: Shape, scalar: Scalar) -> Scalar
    ensures { result ≡ spec.scalar_as shape scalar }
{
    match shape {
        Shape::Integer { kind } => Scalar::Number {
            value: number_as(kind, scalar),
        },
        Shape::Pointer => as_pointer(scalar),
        _ => scalar,
    }
}

/// A value of this one scalar, in the place of another value.
fn only(scalar: Scalar, value: Cells) -> Result<Cells, NoMemory>
    ensures { IfOk result (λ made. made ≡ scalar ∷ []) }
{
    let mut made = value;
    made.truncate(0);
    made.push(scalar)?;
    Ok(made)
}

/// A value as one of a type of this shape: to `void` everything converts, and to a struct or an array nothing but its
/// own type (6.3.2.2, 6.5.16.1). Takes no memory for a value of one cell or more.
pub fn cells_as(shape: Shape, value: Cells) -> Result<Cells, NoMemory>
    ensures { IfOk result (λ made. made ≡ spec.cells_as shape value) }
{
    match shape {
        Shape::Void => {
            let mut made = value;
            made.truncate(0);
            Ok(made)
        }
        Shape::Integer { .. } | Shape::Pointer => {
            let scalar = scalar_as(shape, scalar_in(value.as_slice()));
            let made = only(scalar, value)?;
            Ok(made)
        }
        Shape::Array { .. } | Shape::Struct { .. } | Shape::Function { .. } => Ok(value),
    }
}

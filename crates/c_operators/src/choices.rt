//! Choices and sequences (C11 6.5.15, 6.5.17).

ghost use Rattle.std.specs.Prelude.{◌≡◌, IfOk};
ghost use Rattle.c_kinds.specs.Casts as spec;

use crate::casts::converted_constant;
use crate::values::value_typed;
use c_arithmetic::{
    alike, also_const, chosen_integer, chosen_pointer, const_of, inner, integer, is_pointer,
    is_scalar, pointer_to, shape_of, usual, void,
};
use c_kinds::{Answer, CType, Fixed, Shape, Typed};
use kv_base::{Copied, NoMemory};
use std::alloc::Global;

/// Whether a pointer points to what is `const`.
fn points_to_const(alloc: Global, ctype: &CType) -> Result<bool, NoMemory>
    ensures { IfOk result (λ found. found ≡ spec.points_to_const ctype.now) }
{
    let copied = ctype.copy(alloc)?;
    let pointee = inner(copied);
    Ok(const_of(&pointee))
}

/// A pointer to what either of two pointers points to, `const` where either is (6.5.15p6).
fn composite_pointer(alloc: Global, left: &CType, right: &CType) -> Result<CType, NoMemory>
    ensures { IfOk result (λ made. made ≡ spec.composite_pointer left.now right.now) }
{
    let is_const = points_to_const(alloc, right)?;
    let copied = left.copy(alloc)?;
    let made = pointer_to(also_const(is_const, inner(copied)))?;
    Ok(made)
}

/// A copy of the type where the test holds.
fn where_true(alloc: Global, test: bool, ctype: &CType) -> Result<Option<CType>, NoMemory>
    ensures { IfOk result (λ found. found ≡ spec.where_true test ctype.now) }
{
    if !test {
        return Ok(None);
    }
    let copied = ctype.copy(alloc)?;
    Ok(Some(copied))
}

/// The type of the arms where one is a null pointer constant: the other's type.
fn with_null(alloc: Global, x: &Typed, y: &Typed) -> Result<Option<CType>, NoMemory>
    ensures { IfOk result (λ found. found ≡ spec.with_null x.now y.now) }
{
    if y.is_null && is_pointer(&x.ctype) {
        let copied = x.ctype.copy(alloc)?;
        return Ok(Some(copied));
    }
    let test = x.is_null && is_pointer(&y.ctype);
    let found = where_true(alloc, test, &y.ctype)?;
    Ok(found)
}

/// The type of two arms that are pointers.
fn two_pointers(alloc: Global, x: &Typed, y: &Typed) -> Result<Option<CType>, NoMemory>
    ensures { IfOk result (λ found. found ≡ spec.two_arms Shape.Pointer Shape.Pointer x.now y.now) }
{
    if alike(&x.ctype, &y.ctype) {
        let made = composite_pointer(alloc, &x.ctype, &y.ctype)?;
        return Ok(Some(made));
    }
    let found = with_null(alloc, x, y)?;
    Ok(found)
}

/// The common type of two arms (6.5.15p3 to p6).
fn arms_type(alloc: Global, x: &Typed, y: &Typed) -> Result<Option<CType>, NoMemory>
    ensures { IfOk result (λ found. found ≡ spec.arms_type x.now y.now) }
{
    match (shape_of(&x.ctype), shape_of(&y.ctype)) {
        (Shape::Integer { kind: left }, Shape::Integer { kind: right }) => {
            Ok(Some(integer(alloc, usual(left, right))))
        }
        (Shape::Struct { number: left }, Shape::Struct { number: right }) => {
            let found = where_true(alloc, left == right, &x.ctype)?;
            Ok(found)
        }
        (Shape::Void, Shape::Void) => Ok(Some(void(alloc))),
        (Shape::Pointer, Shape::Pointer) => {
            let found = two_pointers(alloc, x, y)?;
            Ok(found)
        }
        _ => {
            let found = with_null(alloc, x, y)?;
            Ok(found)
        }
    }
}

/// The arm that is chosen, as a constant of a type of this shape.
fn chosen(shape: Shape, test: Fixed, left: Fixed, right: Fixed) -> Fixed
    ensures { result ≡ spec.chosen shape test left right }
{
    match shape {
        Shape::Integer { .. } => chosen_integer(test, left, right),
        Shape::Pointer => chosen_pointer(test, left, right),
        _ => Fixed::Varies,
    }
}

/// A choice of three values, at the `?` (6.5.15).
pub fn conditional(
    alloc: Global,
    at: usize,
    test: &Typed,
    x: &Typed,
    y: &Typed,
) -> Result<Answer, NoMemory>
    ensures { IfOk result (λ answer. answer ≡ spec.conditional_answer at test.now x.now y.now) }
{
    if !is_scalar(&test.ctype) {
        return Ok(Answer::Breaks { rule: 12, at });
    }
    match arms_type(alloc, x, y)? {
        None => Ok(Answer::Breaks { rule: 12, at }),
        Some(ctype) => {
            let shape = shape_of(&ctype);
            let fixed = converted_constant(shape, chosen(shape, test.fixed, x.fixed, y.fixed));
            Ok(Answer::Gives {
                typed: value_typed(ctype, fixed, at, y.ends_at),
            })
        }
    }
}

/// A sequence, whose last part has this value, at the first comma. It is no constant (6.5.17, 6.6p3).
pub fn comma(alloc: Global, at: usize, v: &Typed) -> Result<Answer, NoMemory>
    ensures { IfOk result (λ answer. answer ≡ spec.comma_answer at v.now) }
{
    let ctype = v.ctype.copy(alloc)?;
    Ok(Answer::Gives {
        typed: Typed {
            ctype,
            is_place: v.is_place,
            is_null: false,
            fixed: Fixed::Varies,
            address: v.address,
            named_at: at,
            ends_at: v.ends_at,
        },
    })
}

//! Casts (C11 6.5.4).

ghost use Rattle.std.specs.Prelude.{◌≡◌, IfOk};
ghost use Rattle.c_kinds.specs.declared.types.Shape.TheVariants as shape;
ghost use Rattle.c_kinds.specs.Casts as spec;
ghost use Rattle.c_kinds.specs.Values as values;

use crate::values::{unqualified_copy, value_typed};
use c_arithmetic::{alike, converted, is_integer, shape_of};
use c_kinds::{Answer, Base, CType, Derivation, Fixed, Shape, Typed};
use kv_base::NoMemory;
use kv_num::IntType;
use std::alloc::Global;

/// Whether a type is `_Bool`.
fn is_bool(kind: IntType) -> bool
    ensures { result ≡ spec.is_bool kind }
{
    matches!(kind, IntType::Bool)
}

/// A constant converted to an integer type.
fn converted_number(kind: IntType, fixed: Fixed) -> Fixed
    ensures { result ≡ spec.converted_constant (shape.Integer kind) fixed }
{
    match fixed {
        Fixed::Number { value } => Fixed::Number {
            value: converted(kind, value),
        },
        Fixed::NoValue => Fixed::NoValue,
        _ => Fixed::Varies,
    }
}

/// A constant converted to a type of this shape (6.3.1.3, 6.3.2.3p3).
pub(crate) fn converted_constant(shape: Shape, fixed: Fixed) -> Fixed
    ensures { result ≡ spec.converted_constant shape fixed }
{
    match shape {
        Shape::Integer { kind } => converted_number(kind, fixed),
        Shape::Pointer => match fixed {
            Fixed::Number { .. } => Fixed::Null,
            _ => fixed,
        },
        _ => Fixed::Varies,
    }
}

/// Whether a value is an integer that is a null pointer constant.
fn integer_zero(v: &Typed) -> bool
    ensures { result ≡ spec.integer_zero v.now }
{
    is_integer(&v.ctype) && v.is_null
}

/// Whether a type is exactly `void *`, qualifiers of the pointer itself apart.
fn is_void_pointer(ctype: &CType) -> bool
    ensures { result ≡ values.is_void_pointer ctype.now }
{
    match ctype.derived.as_slice() {
        [] => false,
        [Derivation::Array { .. }, ..] => false,
        [Derivation::Pointer { .. }, rest @ ..] => match rest {
            [] => matches!(ctype.base, Base::Void) && !ctype.is_const,
            [_, ..] => false,
        },
    }
}

/// A value cast to a type, to which it may be. 0 cast to `void *` is a null pointer constant (6.3.2.3p3).
fn cast_result(alloc: Global, at: usize, ctype: &CType, v: &Typed) -> Result<Typed, NoMemory>
    ensures { IfOk result (λ made. made ≡ spec.cast_result at ctype.now v.now) }
{
    let fixed = converted_constant(shape_of(ctype), v.fixed);
    let made = value_typed(unqualified_copy(alloc, ctype)?, fixed, at, v.ends_at);
    let is_null = made.is_null || (is_void_pointer(ctype) && integer_zero(v));
    Ok(Typed {
        ctype: made.ctype,
        is_place: made.is_place,
        is_null,
        fixed: made.fixed,
        address: made.address,
        named_at: made.named_at,
        ends_at: made.ends_at,
    })
}

/// A value cast to a type, if that is allowed.
fn cast_if(
    alloc: Global,
    allowed: bool,
    at: usize,
    ctype: &CType,
    v: &Typed,
) -> Result<Answer, NoMemory>
    ensures { IfOk result (λ answer. answer ≡ spec.cast_if allowed at ctype.now v.now) }
{
    if !allowed {
        return Ok(Answer::Breaks { rule: 15, at });
    }
    let typed = cast_result(alloc, at, ctype, v)?;
    Ok(Answer::Gives { typed })
}

/// A value of the second shape cast to a type of the first one.
fn cast_by(
    alloc: Global,
    to: Shape,
    from: Shape,
    at: usize,
    ctype: &CType,
    v: &Typed,
) -> Result<Answer, NoMemory>
    ensures { IfOk result (λ answer. answer ≡ spec.cast_by to from at ctype.now v.now) }
{
    let allowed = match (to, from) {
        (Shape::Array { .. } | Shape::Function { .. }, _) | (Shape::Struct { .. }, Shape::Void) => {
            return Ok(Answer::Breaks { rule: 12, at });
        }
        (Shape::Struct { .. }, _) | (_, Shape::Struct { .. }) => false,
        (Shape::Void, _) => true,
        (_, Shape::Void) => return Ok(Answer::Breaks { rule: 12, at }),
        (Shape::Integer { .. }, Shape::Integer { .. }) => true,
        (Shape::Integer { kind }, _) => is_bool(kind),
        (Shape::Pointer, Shape::Integer { .. }) => v.is_null,
        (Shape::Pointer, _) => alike(ctype, &v.ctype) || v.is_null,
    };
    let answer = cast_if(alloc, allowed, at, ctype, v)?;
    Ok(answer)
}

/// A value cast to a type (6.5.4).
pub fn cast(
    alloc: Global,
    at: usize,
    star: Option<usize>,
    ctype: &CType,
    v: &Typed,
) -> Result<Answer, NoMemory>
    ensures { IfOk result (λ answer. answer ≡ spec.cast_answer at star ctype.now v.now) }
{
    match star {
        Some(star) if !integer_zero(v) => Ok(Answer::Breaks { rule: 9, at: star }),
        _ => {
            let answer = cast_by(alloc, shape_of(ctype), shape_of(&v.ctype), at, ctype, v)?;
            Ok(answer)
        }
    }
}

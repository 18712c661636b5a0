//! Types and their parts (C11 6.2.5).

ghost use Rattle.std.specs.Prelude.{◌≡◌, IfOk};
ghost use Rattle.c_kinds.specs.Types as spec;

use c_kinds::{Base, CType, Derivation, Shape};
use kv_base::{NoMemory, Sequence};
use kv_num::IntType;
use std::alloc::Global;

/// The outermost part of a type that has no derivation.
pub fn base_shape(base: Base) -> Shape
    ensures { result ≡ spec.base_shape base }
{
    match base {
        Base::Void => Shape::Void,
        Base::Integer { kind } => Shape::Integer { kind },
        Base::Struct { number } => Shape::Struct { number },
        Base::Function { number } => Shape::Function { number },
    }
}

/// The outermost part of a type with these derivations.
pub fn shape_by(derived: &[Derivation], base: Base) -> Shape
    ensures { result ≡ spec.shape_by derived.now base }
{
    match derived {
        [] => base_shape(base),
        [Derivation::Pointer { .. }, ..] => Shape::Pointer,
        [Derivation::Array { length }, ..] => Shape::Array { length: *length },
    }
}

/// The outermost part of a type.
pub fn shape_of(ctype: &CType) -> Shape
    ensures { result ≡ spec.shape_of ctype.now }
{
    shape_by(ctype.derived.as_slice(), ctype.base)
}

/// The outermost part of what a pointer points to, or of an element of an array.
pub fn inner_shape(ctype: &CType) -> Shape
    ensures { result ≡ spec.shape_of (spec.inner ctype.now) }
{
    match ctype.derived.as_slice() {
        [] => base_shape(ctype.base),
        [_, rest @ ..] => shape_by(rest, ctype.base),
    }
}

/// Whether a type is `void` (6.2.5p19).
pub fn is_void(ctype: &CType) -> bool
    ensures { result ≡ spec.is_void ctype.now }
{
    matches!(shape_of(ctype), Shape::Void)
}

/// Whether a type is an integer type (6.2.5p17).
pub fn is_integer(ctype: &CType) -> bool
    ensures { result ≡ spec.is_integer ctype.now }
{
    matches!(shape_of(ctype), Shape::Integer { .. })
}

/// Whether a type is a pointer type (6.2.5p20).
pub fn is_pointer(ctype: &CType) -> bool
    ensures { result ≡ spec.is_pointer ctype.now }
{
    matches!(shape_of(ctype), Shape::Pointer)
}

/// Whether a type is an integer or a pointer type (6.2.5p21).
pub fn is_scalar(ctype: &CType) -> bool
    ensures { result ≡ spec.is_scalar ctype.now }
{
    is_integer(ctype) || is_pointer(ctype)
}

/// Whether a shape is that of an array.
fn is_array_shape(shape: Shape) -> bool
    ensures { result ≡ spec.is_array_shape shape }
{
    matches!(shape, Shape::Array { .. })
}

/// Whether a type is an array type (6.2.5p20).
pub fn is_array(ctype: &CType) -> bool
    ensures { result ≡ spec.is_array ctype.now }
{
    is_array_shape(shape_of(ctype))
}

/// Whether a type is a struct type (6.2.5p20).
pub fn is_struct(ctype: &CType) -> bool
    ensures { result ≡ spec.is_struct ctype.now }
{
    matches!(shape_of(ctype), Shape::Struct { .. })
}

/// Whether a type is a function type (6.2.5p20).
pub fn is_function(ctype: &CType) -> bool
    ensures { result ≡ spec.is_function ctype.now }
{
    matches!(shape_of(ctype), Shape::Function { .. })
}

/// Whether a type is an array of arrays.
pub fn is_rows(ctype: &CType) -> bool
    ensures { result ≡ spec.is_rows ctype.now }
{
    is_array(ctype) && is_array_shape(inner_shape(ctype))
}

/// A type without derivations.
pub fn plain(alloc: Global, base: Base) -> CType
    ensures { result ≡ spec.plain base }
{
    CType {
        derived: Sequence::new(alloc),
        base,
        is_const: false,
    }
}

/// An integer type.
pub fn integer(alloc: Global, kind: IntType) -> CType
    ensures { result ≡ spec.integer kind }
{
    plain(alloc, Base::Integer { kind })
}

/// The type `void`.
pub fn void(alloc: Global) -> CType
    ensures { result ≡ spec.void }
{
    plain(alloc, Base::Void)
}

/// What a pointer points to, or an element of an array (6.2.5p20). It takes no memory.
pub fn inner(ctype: CType) -> CType
    ensures { result ≡ spec.inner ctype }
{
    let mut derived = ctype.derived.into_vec();
    if !derived.is_empty() {
        derived.remove(0);
    }
    CType {
        derived: Sequence::from_vec(derived),
        base: ctype.base,
        is_const: ctype.is_const,
    }
}

/// A type that is derived from another (6.2.5p20).
pub fn derived_from(derivation: Derivation, ctype: CType) -> Result<CType, NoMemory>
    ensures { IfOk result (λ made. made ≡ spec.derived_from derivation ctype) }
{
    let mut derived = ctype.derived.into_vec();
    derived.insert(0, derivation)?;
    Ok(CType {
        derived: Sequence::from_vec(derived),
        base: ctype.base,
        is_const: ctype.is_const,
    })
}

/// A pointer to a type (6.2.5p20).
pub fn pointer_to(ctype: CType) -> Result<CType, NoMemory>
    ensures { IfOk result (λ made. made ≡ spec.pointer_to ctype) }
{
    derived_from(Derivation::Pointer { is_const: false }, ctype)
}

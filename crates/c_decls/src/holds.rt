//! Properties of types that may be unknown, since a rule is broken: an unknown type has none.

ghost use Rattle.std.specs.Prelude.{◌≡◌};
ghost use Rattle.c_kinds.specs.Layouts as layout;
ghost use Rattle.c_kinds.specs.Types as types;
ghost use Rattle.c_rules.specs.Declarations as declaration;
ghost use Rattle.c_rules.specs.Declarators as spec;

use c_arithmetic::{is_array, is_function, is_incomplete, is_rows, is_void, same, shape_of};
use c_kinds::{CType, Shape, Struct};

/// Whether it is `void`.
pub(crate) fn holds_void(ctype: &Option<CType>) -> bool
    ensures { result ≡ spec.holds types.is_void ctype.now }
{
    match ctype {
        Some(ctype) => is_void(ctype),
        None => false,
    }
}

/// Whether it is a function.
pub(crate) fn holds_function(ctype: &Option<CType>) -> bool
    ensures { result ≡ spec.holds types.is_function ctype.now }
{
    match ctype {
        Some(ctype) => is_function(ctype),
        None => false,
    }
}

/// Whether it is an array of arrays.
pub(crate) fn holds_rows(ctype: &Option<CType>) -> bool
    ensures { result ≡ spec.holds types.is_rows ctype.now }
{
    match ctype {
        Some(ctype) => is_rows(ctype),
        None => false,
    }
}

/// Whether it is a struct that isn't complete at a token (C11 6.7.2.1p8).
pub fn holds_incomplete(structs: &[Struct], at: usize, ctype: &Option<CType>) -> bool
    ensures { result ≡ spec.holds (layout.is_incomplete structs.now at) ctype.now }
{
    match ctype {
        Some(ctype) => is_incomplete(structs, at, ctype),
        None => false,
    }
}

/// Whether the profile leaves out pointers to it: `void`, functions and arrays.
pub fn holds_unpointed(ctype: &Option<CType>) -> bool
    ensures { result ≡ spec.holds spec.is_unpointed ctype.now }
{
    match ctype {
        Some(ctype) => is_void(ctype) || (is_function(ctype) || is_array(ctype)),
        None => false,
    }
}

/// Whether no array and no struct has elements of it (6.7.6.2p1, 6.7.2.1p3): `void` and functions.
pub(crate) fn holds_no_element(ctype: &Option<CType>) -> bool
    ensures { result ≡ spec.holds spec.is_no_element ctype.now }
{
    match ctype {
        Some(ctype) => is_void(ctype) || is_function(ctype),
        None => false,
    }
}

/// Whether no function gives it (6.7.6.3p1): arrays and functions.
pub fn holds_no_result(ctype: &Option<CType>) -> bool
    ensures { result ≡ spec.holds spec.is_no_result ctype.now }
{
    match ctype {
        Some(ctype) => is_array(ctype) || is_function(ctype),
        None => false,
    }
}

/// Whether it is `void` without qualifiers.
pub(crate) fn holds_plain_void(ctype: &Option<CType>) -> bool
    ensures { result ≡ spec.holds spec.is_plain_void ctype.now }
{
    match ctype {
        Some(ctype) => is_void(ctype) && !ctype.is_const,
        None => false,
    }
}

/// Whether two types are the same (6.2.7p1). One that isn't known is no other.
pub(crate) fn may_be_same(left: &Option<CType>, right: &Option<CType>) -> bool
    ensures { result ≡ declaration.may_be_same left.now right.now }
{
    match (left, right) {
        (Some(left), Some(right)) => same(left, right),
        _ => true,
    }
}

/// The number of its signature, if it is a function.
pub(crate) fn signature_number_of(ctype: &Option<CType>) -> Option<usize>
    ensures { result ≡ declaration.signature_number_of ctype.now }
{
    match ctype {
        Some(ctype) => match shape_of(ctype) {
            Shape::Function { number } => Some(number),
            _ => None,
        },
        None => None,
    }
}

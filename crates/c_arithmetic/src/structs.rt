//! Structs and their members (C11 6.7.2.1).

ghost use Rattle.std.specs.Prelude.{◌≡◌};
ghost use Rattle.std.specs.Option.{option_copied};
ghost use Rattle.c_kinds.specs.Layouts as spec;

use crate::qualifiers::{const_of, ends_in_base};
use crate::shapes::{base_shape, shape_of};
use c_kinds::{Base, CType, Member, Shape, Struct};

/// Whether a struct that ends at this token, if at any, is complete at another.
fn completed_before(at: usize, completed_at: Option<usize>) -> bool
    ensures { result ≡ spec.completed_before at completed_at }
{
    match completed_at {
        None => false,
        Some(end) => end < at,
    }
}

/// Whether a struct is complete at a token.
pub fn struct_is_complete(at: usize, found: Option<&Struct>) -> bool
    ensures { result ≡ spec.struct_is_complete at (option_copied found.entry) }
{
    match found {
        None => false,
        Some(found) => completed_before(at, found.completed_at),
    }
}

/// Whether a type of this shape is a struct that isn't complete at a token.
pub fn is_incomplete_shape(structs: &[Struct], at: usize, shape: Shape) -> bool
    ensures { result ≡ spec.is_incomplete_shape structs.now at shape }
{
    match shape {
        Shape::Struct { number } => !struct_is_complete(at, structs.get(number)),
        _ => false,
    }
}

/// Whether a type is a struct that isn't complete at a token.
pub fn is_incomplete(structs: &[Struct], at: usize, ctype: &CType) -> bool
    ensures { result ≡ spec.is_incomplete structs.now at ctype.now }
{
    is_incomplete_shape(structs, at, shape_of(ctype))
}

/// Whether a type is such a struct, or an array of them in any number of dimensions.
pub fn lacks_elements(structs: &[Struct], at: usize, ctype: &CType) -> bool
    ensures { result ≡ spec.lacks_elements structs.now at ctype.now }
{
    ends_in_base(ctype.derived.as_slice())
        && is_incomplete_shape(structs, at, base_shape(ctype.base))
}

/// The members of a struct, if there is one.
pub fn members_by<'a>(found: Option<&'a Struct>) -> &'a [Member]
    ensures { result.now ≡ spec.members_by (option_copied found.entry) }
{
    match found {
        None => &[],
        Some(found) => found.members.as_slice(),
    }
}

/// The members of the struct with this number.
pub fn members_of(structs: &[Struct], number: usize) -> &[Member]
    ensures { result.now ≡ spec.members_of structs.now number }
{
    members_by(structs.get(number))
}

/// The first member of this name.
pub fn member_in<'a>(members: &'a [Member], name: &[u8]) -> Option<&'a Member>
    ensures { option_copied result ≡ spec.member_in members.now name.now }
{
    for member in members {
        if member.name.as_slice() == name {
            return Some(member);
        }
    }
    None
}

/// Whether a struct has a `const` member.
fn struct_has_const(found: Option<&Struct>) -> bool
    ensures { result ≡ spec.struct_has_const (option_copied found.entry) }
{
    match found {
        None => false,
        Some(found) => found.has_const,
    }
}

/// Whether a base is a struct with a `const` member.
fn base_has_const(structs: &[Struct], base: Base) -> bool
    ensures { result ≡ spec.base_has_const structs.now base }
{
    match base {
        Base::Struct { number } => struct_has_const(structs.get(number)),
        _ => false,
    }
}

/// Whether objects of the type are `const` or have a `const` member, through structs and arrays (6.3.2.1p1).
pub fn has_const(structs: &[Struct], ctype: &CType) -> bool
    ensures { result ≡ spec.has_const structs.now ctype.now }
{
    const_of(ctype)
        || (ends_in_base(ctype.derived.as_slice()) && base_has_const(structs, ctype.base))
}

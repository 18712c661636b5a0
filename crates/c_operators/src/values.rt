//! Expressions as values (C11 6.3.2).

ghost use Rattle.std.specs.Prelude.{◌≡◌, IfOk};
ghost use Rattle.c_kinds.specs.declared.answer.Answer.TheVariants.{Gives};
ghost use Rattle.c_kinds.specs.Types as types;
ghost use Rattle.c_kinds.specs.Values as spec;
ghost use Rattle.c_operators.specs.Told.{layout_at};

use crate::Given;
use c_arithmetic::{
    inner, is_array, is_incomplete, is_integer, is_rows, is_zero, pointer_to, unqualified,
};
use c_kinds::{Answer, CType, Fixed, Typed};
use kv_base::{Copied, NoMemory};
use std::alloc::Global;

/// What isn't an lvalue. An integer constant 0 is a null pointer constant (6.3.2.3p3).
pub fn value_typed(ctype: CType, fixed: Fixed, named_at: usize, ends_at: usize) -> Typed
    ensures { result ≡ spec.result ctype fixed named_at ends_at }
{
    let is_null = is_integer(&ctype) && is_zero(fixed);
    Typed {
        ctype,
        is_place: false,
        is_null,
        fixed,
        address: Fixed::Varies,
        named_at,
        ends_at,
    }
}

/// An lvalue: what its place is as a constant, and what `&` of it is.
pub fn place_typed(
    ctype: CType,
    fixed: Fixed,
    address: Fixed,
    named_at: usize,
    ends_at: usize,
) -> Typed
    ensures { result ≡ spec.place ctype fixed address named_at ends_at }
{
    Typed {
        ctype,
        is_place: true,
        is_null: false,
        fixed,
        address,
        named_at,
        ends_at,
    }
}

/// What a pointer of this type points to, or an element of an array.
pub(crate) fn inner_copy(alloc: Global, ctype: &CType) -> Result<CType, NoMemory>
    ensures { IfOk result (λ made. made ≡ types.inner ctype.now) }
{
    let copied = ctype.copy(alloc)?;
    Ok(inner(copied))
}

/// The type of a pointer to the first element of an array (6.3.2.1p3).
fn decayed(alloc: Global, ctype: &CType) -> Result<CType, NoMemory>
    ensures { IfOk result (λ made. made ≡ types.pointer_to (types.inner ctype.now)) }
{
    let element = inner_copy(alloc, ctype)?;
    let made = pointer_to(element)?;
    Ok(made)
}

/// A copy of a type without qualifiers of its own.
pub fn unqualified_copy(alloc: Global, ctype: &CType) -> Result<CType, NoMemory>
    ensures { IfOk result (λ made. made ≡ types.unqualified ctype.now) }
{
    let copied = ctype.copy(alloc)?;
    Ok(unqualified(copied))
}

/// An array becomes the pointer to its first element, and an object is read (6.3.2.1p2, p3).
fn converted_value(alloc: Global, x: &Typed) -> Result<Typed, NoMemory>
    ensures { IfOk result (λ made. made ≡ spec.converted_value x.now) }
{
    if is_array(&x.ctype) {
        let ctype = decayed(alloc, &x.ctype)?;
        return Ok(value_typed(ctype, x.fixed, x.named_at, x.ends_at));
    }
    if x.is_place {
        let ctype = unqualified_copy(alloc, &x.ctype)?;
        return Ok(value_typed(ctype, Fixed::Varies, x.named_at, x.ends_at));
    }
    let copied = x.copy(alloc)?;
    Ok(copied)
}

/// An expression whose value is used. An array of arrays has none that the accepted C knows, and a struct that isn't
/// complete has none.
pub fn value(given: &Given, x: &Typed) -> Result<Answer, NoMemory>
    ensures { IfOk result (λ answer. answer ≡ spec.value (layout_at given.now) x.now) }
{
    if is_rows(&x.ctype) {
        return Ok(Answer::Breaks {
            rule: 9,
            at: x.named_at,
        });
    }
    if is_incomplete(given.names.structs.as_slice(), x.ends_at, &x.ctype) {
        return Ok(Answer::Breaks {
            rule: 10,
            at: x.named_at,
        });
    }
    let typed = converted_value(given.alloc, x)?;
    Ok(Answer::Gives { typed })
}

/// A part of an expression as a value: the rule that the part breaks is its own.
pub fn used(given: &Given, part: &Answer) -> Result<Answer, NoMemory>
    ensures { IfOk result (λ answer. answer ≡ spec.used (layout_at given.now) part.now (λ v. Gives v)) }
{
    match part {
        Answer::Gives { typed } => {
            let answer = value(given, typed)?;
            Ok(answer)
        }
        _ => Ok(Answer::Nothing),
    }
}

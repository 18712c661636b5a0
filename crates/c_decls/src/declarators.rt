//! The types that declarators make (C11 6.7.6).

ghost use Rattle.std.specs.Prelude.{◌≡◌, if◌then◌else◌, IfOk, OnOk};
ghost use Rattle.c_rules.specs.Broken.{pair_if as pairs_if};
ghost use Rattle.c_rules.specs.Calls.{is_some};
ghost use Rattle.c_rules.specs.Declarators as spec;
ghost use Rattle.c_decls.specs.Parts.{first_size, site};
ghost use Rattle.c_decls.specs.Steps.{array_state, array_type};

use crate::built::{Built, FirstSize, Site};
use crate::holds::holds_no_element;
use c_arithmetic::{derived_from, is_array, is_function, is_void, plain};
use c_kinds::{Base, CType, Derivation, ParameterTypes, Signature};
use c_rules::{Pair, Pairs};
use c_scopes::State;
use c_tags::is_too_large;
use c_tree::{Declarator, Qualifier};
use kv_base::{NoMemory, Sequence};
use std::alloc::Global;

/// The rule is broken at a token, or none is.
pub(crate) fn pair_if(alloc: Global, broken: bool, at: usize, rule: u8) -> Result<Pairs, NoMemory>
    ensures { IfOk result (λ pairs. pairs ≡ pairs_if broken at rule) }
{
    let mut pairs = Sequence::new(alloc);
    if broken {
        pairs.push(Pair { at, rule })?;
        return Ok(pairs);
    }
    Ok(pairs)
}

/// The token of what is declared, or the first specifier where it has no name.
pub fn named_at(place: Site, b: &Built) -> usize
    ensures { result ≡ (if is_some b.now.name then b.now.at else place.first) }
{
    match &b.name {
        Some(_) => b.at,
        None => place.first,
    }
}

/// Whether `const` is among qualifiers.
pub fn const_among(qualifiers: &[Qualifier]) -> bool
    ensures { result ≡ spec.const_among qualifiers.now }
{
    for qualifier in qualifiers {
        match qualifier {
            Qualifier::Const => return true,
            Qualifier::Volatile | Qualifier::Restrict => {}
        }
    }
    false
}

/// The places of each `volatile` among qualifiers that begin with this token. Tokens past what a number can count are want of
/// memory.
pub fn volatile_pairs(
    alloc: Global,
    first: usize,
    qualifiers: &[Qualifier],
) -> Result<Pairs, NoMemory>
    ensures { IfOk result (λ pairs. pairs ≡ spec.volatile_from first qualifiers.now) }
{
    let mut pairs = Sequence::new(alloc);
    let mut at = first;
    for qualifier in qualifiers {
        match qualifier {
            Qualifier::Volatile => pairs.push(Pair { at, rule: 26 })?,
            Qualifier::Const | Qualifier::Restrict => {}
        }
        if at == usize::MAX {
            return Err(NoMemory);
        }
        at += 1;
    }
    Ok(pairs)
}

/// A pointer to the type, if there is one (6.7.6.1).
pub fn pointer_if(is_const: bool, ctype: Option<CType>) -> Result<Option<CType>, NoMemory>
    ensures { IfOk result (λ made. made ≡ spec.pointer_if is_const ctype) }
{
    match ctype {
        Some(ctype) => {
            let made = derived_from(Derivation::Pointer { is_const }, ctype)?;
            Ok(Some(made))
        }
        None => Ok(None),
    }
}

/// An array of so many elements, if both are known and the type may be that of elements (6.7.6.2).
fn array_of(length: Option<u64>, ctype: Option<CType>) -> Result<Option<CType>, NoMemory>
    ensures { IfOk result (λ made. made ≡ spec.array_of length ctype) }
{
    let Some(length) = length else {
        return Ok(None);
    };
    let Some(ctype) = ctype else {
        return Ok(None);
    };
    if is_void(&ctype) || is_function(&ctype) {
        return Ok(None);
    }
    let made = derived_from(Derivation::Array { length }, ctype)?;
    Ok(Some(made))
}

/// Whether there is a type, and objects of it would have more cells than an object may have.
fn holds_too_large(st: &State, ctype: &Option<CType>) -> bool
    ensures { result ≡ spec.holds (spec.is_too_large st.now) ctype.now }
{
    match ctype {
        Some(ctype) => is_too_large(st.names().structs.as_slice(), ctype),
        None => false,
    }
}

/// The type, unless its objects are too large.
fn if_small(large: bool, ctype: Option<CType>) -> Option<CType>
    ensures { result ≡ spec.if_small large ctype }
{
    if large {
        return None;
    }
    ctype
}

/// The type with which the declarator in an array is looked at: at its `[`, with its length if that is known.
pub fn array_begins(
    st: &mut State,
    place: Site,
    at: usize,
    length: Option<u64>,
    ctype: Option<CType>,
) -> Result<Option<CType>, NoMemory>
    ensures state { OnOk result (st.new ≡ array_state (site place) at length ctype st.old) }
    ensures ctype { IfOk result (λ made. made ≡ array_type (site place) length ctype st.old) }
{
    let is_no_element = holds_no_element(&ctype);
    let made = array_of(length, ctype)?;
    let large = !place.is_type_name && holds_too_large(st, &made);
    st.note_if(is_no_element, place.first, 24)?;
    st.note_if(large, at, 8)?;
    Ok(if_small(large, made))
}

/// The first length of an array that is left out, if it may be.
fn first_length(size: FirstSize) -> Option<u64>
    ensures { result ≡ spec.first_length (first_size size) }
{
    match size {
        FirstSize::OfBraces { parts } => {
            if 0 < parts {
                return Some(parts as u64);
            }
            None
        }
        FirstSize::OfParameter => Some(1),
        FirstSize::Needed => None,
    }
}

/// Whether a declarator is a name, or stands for one that is left out.
pub fn is_direct(x: &Declarator) -> bool
    ensures { result ≡ spec.is_direct x.now }
{
    match x {
        Declarator::Name { .. } | Declarator::Unnamed { .. } => true,
        _ => false,
    }
}

/// The length of an array with `[]`, if it may be left out.
pub fn open_length(place: Site, inside: &Declarator) -> Option<u64>
    ensures { result ≡ spec.open_length (site place) inside.now }
{
    if is_direct(inside) {
        return first_length(place.first_size);
    }
    None
}

/// The type of a function, if its result and its parameters have types and it may have such a result (6.7.6.3).
pub fn signature_of(
    ctype: Option<CType>,
    parameters: Option<ParameterTypes>,
    is_variadic: bool,
) -> Option<Signature>
    ensures { result ≡ spec.signature_of ctype parameters is_variadic }
{
    let Some(gives) = ctype else {
        return None;
    };
    let Some(parameters) = parameters else {
        return None;
    };
    if is_array(&gives) || is_function(&gives) {
        return None;
    }
    Some(Signature {
        result: gives,
        parameters,
        is_variadic,
    })
}

/// The type with which the declarator in a function is looked at: that of its signature, if there is one.
pub fn function_by(st: &mut State, signature: Option<Signature>) -> Result<Option<CType>, NoMemory>
    ensures state { OnOk result (st.new ≡ (spec.function_by signature st.old).state) }
    ensures ctype { IfOk result (λ made. made ≡ (spec.function_by signature st.old).ctype) }
{
    match signature {
        Some(signature) => {
            let number = st.number_signature(signature)?;
            Ok(Some(plain(st.alloc(), Base::Function { number })))
        }
        None => Ok(None),
    }
}

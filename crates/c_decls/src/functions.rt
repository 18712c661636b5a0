//! Declarations of functions (C11 6.7.6.3, 6.9.1).

ghost use Rattle.std.specs.Prelude.{◌≡◌, IfOk, OnOk};
ghost use Rattle.std.specs.Option.{option_copied};
ghost use Rattle.c_rules.specs.declared.names.Declares.TheVariants.{Function as OfFunction};
ghost use Rattle.c_rules.specs.Declarations as spec;
ghost use Rattle.c_decls.specs.Parts.{how};

use crate::built::How;
use crate::typedefs::copy_declares;
use c_kinds::Signature;
use c_rules::{Declares, Function, KnownFunction, Meaning};
use c_scopes::State;
use c_tags::{is_known, is_known_signature, known_named, may_have_body};
use kv_base::{Bytes, Copied, NoMemory};

/// Whether two numbers of signatures are the same. One that isn't known is no other.
fn may_be_same_number(left: Option<usize>, right: Option<usize>) -> bool
    ensures { result ≡ spec.may_be_same_number left right }
{
    match (left, right) {
        (Some(left), Some(right)) => left == right,
        _ => true,
    }
}

/// The first of two numbers that is known.
fn first_number(left: Option<usize>, right: Option<usize>) -> Option<usize>
    ensures { result ≡ spec.first_number left right }
{
    match left {
        Some(number) => Some(number),
        None => right,
    }
}

/// What a function is after a further declaration. `first` is its first parameter's number.
fn declared_further(
    manner: How,
    signature: Option<usize>,
    first: usize,
    function: &Function,
) -> Function
    ensures { result ≡ spec.declared_further (how manner) signature first function.now }
{
    Function {
        signature: first_number(function.signature, signature),
        known: function.known,
        is_defined: function.is_defined || manner.has_body,
        first: if manner.has_body {
            first
        } else {
            function.first
        },
    }
}

/// Whether a further declaration of a function has another type, or a second body.
fn function_clashes(manner: How, signature: Option<usize>, function: &Function) -> bool
    ensures { result ≡ spec.function_clashes (how manner) signature function.now }
{
    !may_be_same_number(function.signature, signature) || (function.is_defined && manner.has_body)
}

/// A further declaration of the function of this number (6.2.2, 6.2.7).
fn function_numbered(
    st: &mut State,
    manner: How,
    signature: Option<usize>,
    first: usize,
    at: usize,
    number: usize,
) -> Result<(), NoMemory>
    ensures { OnOk result (st.new ≡ spec.function_again (how manner) signature first at (OfFunction number) st.old) }
{
    let Some(function) = st.names().functions.get(number) else {
        return Ok(());
    };
    let clashes = function_clashes(manner, signature, function);
    let further = declared_further(manner, signature, first, function);
    st.note_if(clashes, at, 4)?;
    st.mean(at, Meaning::Function { number })?;
    st.change_function(number, further);
    Ok(())
}

/// A function's name that is declared already.
fn function_again(
    st: &mut State,
    manner: How,
    signature: Option<usize>,
    first: usize,
    at: usize,
    declares: &Declares,
) -> Result<(), NoMemory>
    ensures { OnOk result (st.new ≡ spec.function_again (how manner) signature first at declares.now st.old) }
{
    match declares {
        Declares::Function { number } => {
            function_numbered(st, manner, signature, first, at, *number)
        }
        _ => st.note(at, 4),
    }
}

/// A function that isn't declared yet.
fn new_function(
    st: &mut State,
    name: &Bytes,
    manner: How,
    signature: Option<usize>,
    first: usize,
    at: usize,
) -> Result<(), NoMemory>
    ensures { OnOk result (st.new ≡ spec.new_function name.now (how manner) signature first at st.old) }
{
    let number = st.names().functions.len();
    let known = known_named(st.model(), name.as_slice());
    st.add_function(Function {
        signature,
        known,
        is_defined: manner.has_body,
        first,
    })?;
    st.mean(at, Meaning::Function { number })?;
    let linked = name.copy(st.alloc())?;
    st.link(linked, Declares::Function { number })?;
    let name = name.copy(st.alloc())?;
    st.declare(name, Declares::Function { number })
}

/// A function that isn't declared in the innermost block: in another block, or with linkage of the file (6.2.2p5).
fn function_outside(
    st: &mut State,
    name: &Bytes,
    manner: How,
    signature: Option<usize>,
    first: usize,
    at: usize,
) -> Result<(), NoMemory>
    ensures { OnOk result (st.new ≡ spec.function_outside name.now (how manner) signature first at st.old) }
{
    match st.find_linked(name.as_slice()) {
        Some(entry) => {
            let declares = copy_declares(st, &entry.declares)?;
            function_again(st, manner, signature, first, at, &declares)?;
            let name = name.copy(st.alloc())?;
            st.declare(name, declares)
        }
        None => new_function(st, name, manner, signature, first, at),
    }
}

/// Whether a known function is declared with another type.
fn has_other_type(
    st: &State,
    is_unsaid: bool,
    function: KnownFunction,
    signature: Option<&Signature>,
) -> Result<bool, NoMemory>
    ensures { IfOk result (λ other. other ≡ spec.has_other_type is_unsaid function (option_copied signature.entry)) }
{
    match signature {
        Some(signature) => {
            let fits = is_known_signature(st.alloc(), function, is_unsaid, signature)?;
            Ok(!fits)
        }
        None => Ok(false),
    }
}

/// Whether a known function is declared with another type, or with a body.
fn is_misdeclared(
    st: &State,
    manner: How,
    is_unsaid: bool,
    function: KnownFunction,
    signature: Option<&Signature>,
) -> Result<bool, NoMemory>
    ensures { IfOk result (λ other. other ≡ spec.is_misdeclared (how manner) is_unsaid function (option_copied signature.entry)) }
{
    let other = has_other_type(st, is_unsaid, function, signature)?;
    Ok(other || (manner.has_body && !may_have_body(function)))
}

/// The signature of this number.
fn signature_at(st: &State, number: Option<usize>) -> Option<&Signature>
    ensures { option_copied result ≡ spec.signature_at st.now number }
{
    match number {
        Some(number) => st.names().signatures.get(number),
        None => None,
    }
}

/// A declaration of a known function has its type, and a body only where it may have one.
fn knows(
    st: &mut State,
    name: &Bytes,
    manner: How,
    is_unsaid: bool,
    signature: Option<usize>,
    at: usize,
) -> Result<(), NoMemory>
    ensures { OnOk result (st.new ≡ spec.knows name.now (how manner) is_unsaid signature at st.old) }
{
    match known_named(st.model(), name.as_slice()) {
        Some(function) => {
            let said = signature_at(st, signature);
            let other = is_misdeclared(st, manner, is_unsaid, function, said)?;
            st.note_if(other, at, 23)
        }
        None => Ok(()),
    }
}

/// What a declaration says of the signature: the `()` of a known function without a body says nothing.
fn said(
    st: &State,
    name: &Bytes,
    manner: How,
    is_unsaid: bool,
    signature: Option<usize>,
) -> Option<usize>
    ensures { result ≡ spec.said st.now name.now (how manner) is_unsaid signature }
{
    if is_unsaid && (is_known(st, name.as_slice()) && !manner.has_body) {
        return None;
    }
    signature
}

/// A name of a function with the signature of this number. `first` is its first parameter's number.
pub fn declares_function(
    st: &mut State,
    name: &Bytes,
    at: usize,
    manner: How,
    is_unsaid: bool,
    first: usize,
    signature: Option<usize>,
) -> Result<(), NoMemory>
    ensures { OnOk result (st.new ≡ spec.declares_function name.now at (how manner) is_unsaid first signature st.old) }
{
    st.note_if(manner.is_initialised, manner.first, 24)?;
    knows(st, name, manner, is_unsaid, signature, at)?;
    let signature = said(st, name, manner, is_unsaid, signature);
    match st.find_here(name.as_slice()) {
        Some(entry) => {
            let declares = copy_declares(st, &entry.declares)?;
            function_again(st, manner, signature, first, at, &declares)
        }
        None => function_outside(st, name, manner, signature, first, at),
    }
}

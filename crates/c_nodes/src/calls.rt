//! Calls (C11 6.5.2.2): what a call gives, by what its name stands for.

ghost use Rattle.std.specs.Prelude.{◌≡◌, IfOk, slice_get};
ghost use Rattle.std.specs.Option.{option_copied};
ghost use Rattle.c_rules.specs.Typing as spec;

use crate::names::name_by;
use c_arithmetic::{integer, void};
use c_kinds::{Answer, CType, Fixed};
use c_operators::{Given, unqualified_copy, value_typed};
use c_rules::{Function, KnownFunction, Meaning, Names};
use kv_base::NoMemory;
use std::alloc::Global;

/// The type of a call of a known function.
fn known_result(alloc: Global, function: KnownFunction) -> CType
    ensures { result ≡ spec.known_result function }
{
    match function {
        KnownFunction::Nondet { kind } => integer(alloc, kind),
        _ => void(alloc),
    }
}

/// The type of a call of a function with the signature of this number.
fn signature_result(given: &Given, number: usize) -> Result<Option<CType>, NoMemory>
    ensures { IfOk result (λ found. found ≡ spec.signature_result (slice_get given.now.names.now.signatures number)) }
{
    match given.names.signatures.get(number) {
        None => Ok(None),
        Some(signature) => {
            let made = unqualified_copy(given.alloc, &signature.result)?;
            Ok(Some(made))
        }
    }
}

/// The type of a call of a declared function, if it has one.
fn function_result(given: &Given, function: &Function) -> Result<Option<CType>, NoMemory>
    ensures { IfOk result (λ found. found ≡ spec.function_result given.now.names.now function.now) }
{
    match function.signature {
        Some(number) => {
            let found = signature_result(given, number)?;
            Ok(found)
        }
        None => match function.known {
            None => Ok(None),
            Some(known) => Ok(Some(known_result(given.alloc, known))),
        },
    }
}

/// The type of a call of the function with this number, if it has one.
fn numbered_result(given: &Given, number: usize) -> Result<Option<CType>, NoMemory>
    ensures { IfOk result (λ found. found ≡ spec.numbered_result given.now.names.now (slice_get given.now.names.now.functions number)) }
{
    match given.names.functions.get(number) {
        None => Ok(None),
        Some(function) => {
            let found = function_result(given, function)?;
            Ok(found)
        }
    }
}

/// Whether a known function is `__assert_fail`.
fn is_assert_fail_by(known: Option<KnownFunction>) -> bool
    ensures { result ≡ spec.is_assert_fail_by known }
{
    matches!(known, Some(KnownFunction::AssertFail))
}

/// Whether the function with this number is `__assert_fail`.
fn numbered_assert_fail(names: &Names, number: usize) -> bool
    ensures { result ≡ spec.numbered_assert_fail (slice_get names.now.functions number) }
{
    match names.functions.get(number) {
        None => false,
        Some(function) => is_assert_fail_by(function.known),
    }
}

/// Whether a name stands for `__assert_fail`, whose arguments may be strings.
pub fn is_assert_fail(names: &Names, meaning: Option<&Meaning>) -> bool
    ensures { result ≡ spec.is_assert_fail names.now (option_copied meaning.entry) }
{
    match meaning {
        Some(Meaning::Known { function }) => is_assert_fail_by(Some(*function)),
        Some(Meaning::Function { number }) => numbered_assert_fail(names, *number),
        _ => false,
    }
}

/// A call at the `(`, of this type if it has one; the name is a token too.
fn called_result(name: usize, at: usize, found: Option<CType>) -> Answer
    ensures { result ≡ spec.called_result name at found }
{
    match found {
        None => Answer::Nothing,
        Some(ctype) => Answer::Gives {
            typed: value_typed(ctype, Fixed::Varies, name, at),
        },
    }
}

/// A call of what a name stands for: one that is no function is no operand of a call.
pub(crate) fn call_by(
    given: &Given,
    is_unevaluated: bool,
    name: usize,
    at: usize,
    meaning: Option<&Meaning>,
) -> Result<Answer, NoMemory>
    ensures { IfOk result (λ answer. answer ≡ spec.call_by given.now.names.now is_unevaluated name at (option_copied meaning.entry)) }
{
    match meaning {
        Some(Meaning::Function { number }) => {
            let found = numbered_result(given, *number)?;
            Ok(called_result(name, at, found))
        }
        Some(Meaning::Known { function }) => {
            let ctype = known_result(given.alloc, *function);
            Ok(called_result(name, at, Some(ctype)))
        }
        _ => match name_by(given, is_unevaluated, name, meaning)? {
            Answer::Gives { .. } => Ok(Answer::Breaks { rule: 12, at }),
            answer => Ok(answer),
        },
    }
}

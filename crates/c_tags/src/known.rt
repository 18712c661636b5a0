//! Functions that need no declaration, and which declarations of them are accepted.

ghost use Rattle.std.specs.Prelude.{◌≡◌, IfOk};
ghost use Rattle.std.specs.Option.{option_copied};
ghost use Rattle.c_rules.specs.KnownFunctions as spec;
ghost use Rattle.c_rules.specs.Typing as typing;

use c_arithmetic::{integer, long_of, same, unqualified, unsigned_long_of, void};
use c_kinds::{CType, Signature};
use c_rules::KnownFunction;
use c_scopes::State;
use c_tokens::DataModel;
use kv_base::{Copied, NoMemory};
use kv_num::IntType;
use std::alloc::Global;

/// The known functions that aren't input functions.
fn other_function(name: &[u8]) -> Option<KnownFunction>
    ensures { result ≡ spec.row_named spec.other_functions name.now }
{
    if b"assert".as_slice() == name {
        return Some(KnownFunction::Assert);
    }
    if b"__VERIFIER_assume".as_slice() == name {
        return Some(KnownFunction::Assume);
    }
    if b"__ESBMC_assume".as_slice() == name {
        return Some(KnownFunction::Assume);
    }
    if b"abort".as_slice() == name {
        return Some(KnownFunction::Abort);
    }
    if b"exit".as_slice() == name {
        return Some(KnownFunction::Exit);
    }
    if b"reach_error".as_slice() == name {
        return Some(KnownFunction::Error);
    }
    if b"__VERIFIER_error".as_slice() == name {
        return Some(KnownFunction::Error);
    }
    if b"__assert_fail".as_slice() == name {
        return Some(KnownFunction::AssertFail);
    }
    None
}

/// The type that the name of an input function ends in.
fn input_type(model: DataModel, name: &[u8]) -> Option<IntType>
    ensures { result ≡ spec.row_named (spec.input_types model) name.now }
{
    if b"bool".as_slice() == name {
        return Some(IntType::Bool);
    }
    if b"char".as_slice() == name {
        return Some(IntType::Char);
    }
    if b"uchar".as_slice() == name {
        return Some(IntType::UChar);
    }
    if b"short".as_slice() == name {
        return Some(IntType::Short);
    }
    if b"ushort".as_slice() == name {
        return Some(IntType::UShort);
    }
    if b"int".as_slice() == name {
        return Some(IntType::Int);
    }
    if b"uint".as_slice() == name {
        return Some(IntType::UInt);
    }
    if b"unsigned".as_slice() == name {
        return Some(IntType::UInt);
    }
    if b"long".as_slice() == name {
        return Some(long_of(model));
    }
    if b"ulong".as_slice() == name {
        return Some(unsigned_long_of(model));
    }
    if b"longlong".as_slice() == name {
        return Some(IntType::LongLong);
    }
    if b"ulonglong".as_slice() == name {
        return Some(IntType::ULongLong);
    }
    None
}

/// What stands in a name after a prefix.
fn behind<'a>(prefix: &[u8], name: &'a [u8]) -> Option<&'a [u8]>
    ensures { option_copied result ≡ spec.behind prefix.now name.now }
{
    match prefix {
        [] => Some(name),
        [first, rest @ ..] => match name {
            [] => None,
            [letter, further @ ..] => {
                if first == letter {
                    return behind(rest, further);
                }
                None
            }
        },
    }
}

/// The input function whose name ends so, if it has its prefix.
fn input_of(model: DataModel, ending: Option<&[u8]>) -> Option<KnownFunction>
    ensures { result ≡ spec.input_of model (option_copied ending.entry) }
{
    match ending {
        Some(name) => match input_type(model, name) {
            Some(kind) => Some(KnownFunction::Nondet { kind }),
            None => None,
        },
        None => None,
    }
}

/// The known function of this name.
#[tactic(auto, unfolding(c_rules::specs::KnownFunctions::known_named))]
pub fn known_named(model: DataModel, name: &[u8]) -> Option<KnownFunction>
    ensures { result ≡ spec.known_named model name.now }
{
    if let Some(function) = other_function(name) {
        return Some(function);
    }
    if let Some(function) = input_of(model, behind(b"__VERIFIER_nondet_", name)) {
        return Some(function);
    }
    input_of(model, behind(b"nondet_", name))
}

/// Whether a name is that of a known function.
pub fn is_known(st: &State, name: &[u8]) -> bool
    ensures { result ≡ spec.is_known st.now name.now }
{
    match known_named(st.model(), name) {
        Some(_) => true,
        None => false,
    }
}

/// Whether a name in the file is that of a known function, where only the function may have it.
pub fn is_known_in_file(st: &State, name: &[u8]) -> bool
    ensures { result ≡ spec.is_known_in_file st.now name.now }
{
    st.is_at_file() && is_known(st, name)
}

/// What a known function gives.
fn known_result(alloc: Global, function: KnownFunction) -> CType
    ensures { result ≡ typing.known_result function }
{
    match function {
        KnownFunction::Nondet { kind } => integer(alloc, kind),
        _ => void(alloc),
    }
}

/// Whether a type is `int` or `_Bool`.
fn is_int_or_bool(alloc: Global, ctype: &CType) -> bool
    ensures { result ≡ spec.is_int_or_bool ctype.now }
{
    same(ctype, &integer(alloc, IntType::Int)) || same(ctype, &integer(alloc, IntType::Bool))
}

/// Whether there is one type, and it is `int` or `_Bool`.
fn is_one_number(alloc: Global, ctypes: &[CType]) -> bool
    ensures { result ≡ spec.is_one_number ctypes.now }
{
    match ctypes {
        [ctype] => is_int_or_bool(alloc, ctype),
        _ => false,
    }
}

/// Whether a known function may be declared with parameters of these types.
fn known_parameters(alloc: Global, function: KnownFunction, ctypes: &[CType]) -> bool
    ensures { result ≡ spec.known_parameters function ctypes.now }
{
    match function {
        KnownFunction::Assert | KnownFunction::Assume | KnownFunction::Exit => {
            is_one_number(alloc, ctypes)
        }
        KnownFunction::AssertFail => true,
        _ => is_nothing(ctypes),
    }
}

/// Whether there are no types.
fn is_nothing(ctypes: &[CType]) -> bool
    ensures { result ≡ spec.is_nothing ctypes.now }
{
    match ctypes {
        [] => true,
        _ => false,
    }
}

/// Whether a known function may be declared with a `...`.
fn may_be_variadic(function: KnownFunction) -> bool
    ensures { result ≡ spec.may_be_variadic function }
{
    matches!(function, KnownFunction::AssertFail)
}

/// Whether a known function may have a body.
pub fn may_have_body(function: KnownFunction) -> bool
    ensures { result ≡ spec.may_have_body function }
{
    matches!(function, KnownFunction::Error)
}

/// Whether a known function may be declared with this signature, where `()` stands for the known parameters.
pub fn is_known_signature(
    alloc: Global,
    function: KnownFunction,
    is_unsaid: bool,
    signature: &Signature,
) -> Result<bool, NoMemory>
    ensures { IfOk result (λ fits. fits ≡ spec.is_known_signature function is_unsaid signature.now) }
{
    let given = unqualified(signature.result.copy(alloc)?);
    let gives = same(&given, &known_result(alloc, function));
    let takes = known_parameters(alloc, function, signature.parameters.as_slice());
    Ok(gives && (is_unsaid || (takes && (!signature.is_variadic || may_be_variadic(function)))))
}

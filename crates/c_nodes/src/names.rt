//! Names and type names (C11 6.5.1, 6.7.7).

ghost use Rattle.std.specs.Prelude.{◌≡◌, IfOk, slice_get};
ghost use Rattle.std.specs.Option.{option_copied};
ghost use Rattle.c_kinds.specs.declared.answer.Answer.TheVariants.{Gives};
ghost use Rattle.c_kinds.specs.declared.typed.Fixed.TheVariants.{Number};
ghost use Rattle.c_kinds.specs.Types as types;
ghost use Rattle.c_kinds.specs.Values as values;
ghost use Rattle.c_rules.specs.Typing as spec;
ghost use Rattle.c_operators.specs.Told.{layout_at};

use c_arithmetic::integer;
use c_kinds::{Answer, Fixed, Typed};
use c_operators::{Given, cast, place_typed, sizeof_type, value_typed};
use c_rules::{Meaning, Names, Object};
use kv_base::{Copied, NoMemory};
use kv_num::IntType;
use std::alloc::Global;

/// What stands at a token.
pub fn meaning_at(names: &Names, at: usize) -> Option<&Meaning>
    ensures { option_copied result ≡ spec.meaning_at names.now at }
{
    match names.meanings.get(at) {
        Some(Some(meaning)) => Some(meaning),
        _ => None,
    }
}

/// The place of the object with this number, if it has a type. That of a static one is constant (6.6p9).
fn object_typed(
    alloc: Global,
    at: usize,
    number: usize,
    object: &Object,
) -> Result<Answer, NoMemory>
    ensures { IfOk result (λ answer. answer ≡ spec.object_typed at number object.now object.now.ctype) }
{
    match &object.ctype {
        None => Ok(Answer::Nothing),
        Some(ctype) => {
            let copied = ctype.copy(alloc)?;
            let fixed = if object.is_static {
                Fixed::At {
                    object: number,
                    cell: 0,
                }
            } else {
                Fixed::Varies
            };
            Ok(Answer::Gives {
                typed: place_typed(copied, fixed, fixed, at, at),
            })
        }
    }
}

/// The name of an object, which is defined somewhere where it is used. An operand of `sizeof` is no use (6.9p5).
fn object(given: &Given, is_unevaluated: bool, at: usize, number: usize) -> Result<Answer, NoMemory>
    ensures { IfOk result (λ answer. answer ≡ spec.object_answer is_unevaluated at number (slice_get given.now.names.now.objects number)) }
{
    match given.names.objects.get(number) {
        None => Ok(Answer::Nothing),
        Some(found) => {
            if found.is_defined || is_unevaluated {
                let answer = object_typed(given.alloc, at, number, found)?;
                Ok(answer)
            } else {
                Ok(Answer::Breaks { rule: 3, at })
            }
        }
    }
}

/// The name of an enumeration constant, if it has a value (6.4.4.3).
fn enumerator(alloc: Global, at: usize, value: Option<i128>) -> Answer
    ensures { result ≡ spec.constant_answer at value }
{
    match value {
        None => Answer::Nothing,
        Some(value) => Answer::Gives {
            typed: value_typed(
                integer(alloc, IntType::Int),
                Fixed::Number { value },
                at,
                at,
            ),
        },
    }
}

/// A name that isn't the function of a call, by what it stands for: a function is no value there.
pub(crate) fn name_by(
    given: &Given,
    is_unevaluated: bool,
    at: usize,
    meaning: Option<&Meaning>,
) -> Result<Answer, NoMemory>
    ensures { IfOk result (λ answer. answer ≡ spec.name_by given.now.names.now is_unevaluated at (option_copied meaning.entry)) }
{
    match meaning {
        Some(Meaning::Object { number }) => {
            let answer = object(given, is_unevaluated, at, *number)?;
            Ok(answer)
        }
        Some(Meaning::Constant { value }) => Ok(enumerator(given.alloc, at, *value)),
        Some(Meaning::Function { .. } | Meaning::Known { .. }) => {
            Ok(Answer::Breaks { rule: 9, at })
        }
        _ => Ok(Answer::Breaks { rule: 3, at }),
    }
}

/// A name that isn't the function of a call (6.5.1).
pub fn name(given: &Given, is_unevaluated: bool, at: usize) -> Result<Answer, NoMemory>
    ensures { IfOk result (λ answer. answer ≡ spec.name_answer given.now.names.now is_unevaluated at) }
{
    let answer = name_by(given, is_unevaluated, at, meaning_at(given.names, at))?;
    Ok(answer)
}

/// An integer constant (6.4.4.1).
pub fn constant(alloc: Global, kind: IntType, value: i128, at: usize) -> Answer
    ensures { result ≡ Gives (values.result (types.integer kind) (Number value) at at) }
{
    Answer::Gives {
        typed: value_typed(integer(alloc, kind), Fixed::Number { value }, at, at),
    }
}

/// A value cast to the type that is named at the `(`. A type name whose parts break a rule names no type.
pub fn cast_to_named(given: &Given, at: usize, v: &Typed) -> Result<Answer, NoMemory>
    ensures { IfOk result (λ answer. answer ≡ spec.cast_to at (spec.meaning_at given.now.names.now at) v.now) }
{
    match meaning_at(given.names, at) {
        Some(
            Meaning::Type {
                ctype: Some(ctype),
                star,
            },
        ) => {
            let answer = cast(given.alloc, at, *star, ctype, v)?;
            Ok(answer)
        }
        Some(Meaning::Type { ctype: None, .. }) => Ok(Answer::Nothing),
        _ => Ok(Answer::Breaks { rule: 3, at }),
    }
}

/// `sizeof` of the type that is named behind it.
pub fn sizeof_named(given: &Given, at: usize) -> Answer
    ensures { result ≡ spec.sizeof_named (layout_at given.now) at (spec.meaning_at given.now.names.now at) }
{
    match meaning_at(given.names, at) {
        Some(
            Meaning::Type {
                ctype: Some(ctype),
                star,
            },
        ) => sizeof_type(given, at, *star, ctype),
        Some(Meaning::Type { ctype: None, .. }) => Answer::Nothing,
        _ => Answer::Breaks { rule: 3, at },
    }
}

/// Whether a name stands for a function.
pub fn is_function_meaning(meaning: Option<&Meaning>) -> bool
    ensures { result ≡ spec.is_function_meaning (option_copied meaning.entry) }
{
    matches!(
        meaning,
        Some(Meaning::Function { .. } | Meaning::Known { .. })
    )
}

//! The rules that a node breaks and that leave it its type, and the rule that leaves it none.

ghost use Rattle.std.specs.Prelude.{◌≡◌, IfOk, [], ◌∷◌, ◌++◌};
ghost use Rattle.std.specs.Option.{option_copied};
ghost use Rattle.c_kinds.specs.declared.answer.Answer.TheVariants.{Gives};
ghost use Rattle.c_kinds.specs.Types as types;
ghost use Rattle.c_kinds.specs.Casts as casts;
ghost use Rattle.c_rules.specs.Broken as broken;
ghost use Rattle.c_rules.specs.Calls as calls;
ghost use Rattle.c_rules.specs.Expressions as spec;
ghost use Rattle.c_rules.specs.Typing as typing;
ghost use Rattle.c_nodes.specs.Arguments.{answers_in};
ghost use Rattle.c_operators.specs.Told.{IsCounted, layout_at};

use crate::arguments::Argument;
use crate::names::meaning_at;
use crate::nodes::assign_node;
use c_arithmetic::{is_integer, is_scalar};
use c_kinds::{Answer, CType, Typed};
use c_operators::{Given, assigns_misfit, fits, used};
use c_rules::{Function, KnownFunction, Meaning, Pair, Pairs};
use c_tree::AssignOperator;
use kv_base::{NoMemory, Sequence};
use std::alloc::Global;

/// The pair of a place and a rule, if the rule is broken there.
fn pair_if(alloc: Global, is_broken: bool, at: usize, rule: u8) -> Result<Pairs, NoMemory>
    ensures { IfOk result (λ pairs. pairs ≡ broken.pair_if is_broken at rule) }
{
    let mut pairs = Sequence::new(alloc);
    if !is_broken {
        return Ok(pairs);
    }
    pairs.push(Pair { at, rule })?;
    Ok(pairs)
}

/// The rule that leaves an expression without a type, if it is its own.
pub fn broken_in(alloc: Global, answer: &Answer) -> Result<Pairs, NoMemory>
    ensures { IfOk result (λ pairs. pairs ≡ broken.broken_in answer.now) }
{
    let mut pairs = Sequence::new(alloc);
    match answer {
        Answer::Breaks { rule, at } => {
            pairs.push(Pair {
                at: *at,
                rule: *rule,
            })?;
            Ok(pairs)
        }
        _ => Ok(pairs),
    }
}

/// Whether what is assigned to a target with a type doesn't fit it.
#[tactic(auto, using(crate::proofs::Parts::used_gives, crate::proofs::Parts::used_breaks, crate::proofs::Parts::used_nothing))]
fn misfit_of(
    given: &Given,
    operator: AssignOperator,
    at: usize,
    target: &Typed,
    value: &Answer,
) -> Result<bool, NoMemory>
    requires { IsCounted (layout_at given.now) }
    ensures { IfOk result (λ found. found ≡ spec.misfit (layout_at given.now) operator at (Gives target.now) value.now) }
{
    match used(given, value)? {
        Answer::Gives { typed } => {
            let found = assigns_misfit(given, operator, at, target, &typed)?;
            Ok(found)
        }
        _ => Ok(false),
    }
}

/// Whether what is assigned doesn't fit its target.
fn misfit(
    given: &Given,
    operator: AssignOperator,
    at: usize,
    target: &Answer,
    value: &Answer,
) -> Result<bool, NoMemory>
    requires { IsCounted (layout_at given.now) }
    ensures { IfOk result (λ found. found ≡ spec.misfit (layout_at given.now) operator at target.now value.now) }
{
    match target {
        Answer::Gives { typed } => {
            let found = misfit_of(given, operator, at, typed, value)?;
            Ok(found)
        }
        _ => Ok(false),
    }
}

/// Whether an expression has a type.
fn has_type(answer: &Answer) -> bool
    ensures { result ≡ spec.has_type answer.now }
{
    matches!(answer, Answer::Gives { .. })
}

/// Rule 13 of an assignment that has a type: what is assigned doesn't fit (6.5.16.1p1).
pub fn misfit_pairs(
    given: &Given,
    operator: AssignOperator,
    at: usize,
    target: &Answer,
    value: &Answer,
) -> Result<Pairs, NoMemory>
    requires { IsCounted (layout_at given.now) }
    ensures { IfOk result (λ pairs. pairs ≡ spec.misfit_pairs (layout_at given.now) operator at target.now value.now) }
{
    let whole = assign_node(given, operator, at, target, value)?;
    let is_misfit = misfit(given, operator, at, target, value)?;
    let pairs = pair_if(given.alloc, has_type(&whole) && is_misfit, at, 13)?;
    Ok(pairs)
}

/// Whether an argument may be assigned to a parameter of this type, if it has a value.
fn argument_fits(given: &Given, parameter: &CType, argument: &Answer) -> Result<bool, NoMemory>
    ensures { IfOk result (λ found. found ≡ calls.value_has (layout_at given.now) (casts.fits parameter.now) argument.now) }
{
    match used(given, argument)? {
        Answer::Gives { typed } => Ok(fits(parameter, &typed)),
        _ => Ok(true),
    }
}

/// Whether the arguments are as many as the parameters, and each may be assigned to its parameter (6.5.2.2p2).
#[tactic(auto, using(crate::proofs::ArgumentLemmas::too_few))]
fn all_fit(
    given: &Given,
    parameters: &[CType],
    is_variadic: bool,
    arguments: &[Argument],
) -> Result<bool, NoMemory>
    ensures { IfOk result (λ found. found ≡ calls.all_fit (layout_at given.now) parameters.now is_variadic (answers_in arguments.now)) }
{
    if arguments.len() < parameters.len() {
        return Ok(false);
    }
    for (i, parameter) in parameters.iter().enumerate() {
        if !argument_fits(given, parameter, &arguments[i].answer)? {
            return Ok(false);
        }
    }
    Ok(arguments.len() == parameters.len() || is_variadic)
}

/// Whether an argument is a scalar, if it has a value.
fn is_scalar_value(given: &Given, argument: &Answer) -> Result<bool, NoMemory>
    ensures { IfOk result (λ found. found ≡ calls.value_has (layout_at given.now) (λ v. types.is_scalar v.ctype) argument.now) }
{
    match used(given, argument)? {
        Answer::Gives { typed } => Ok(is_scalar(&typed.ctype)),
        _ => Ok(true),
    }
}

/// Whether an argument is an integer, if it has a value.
fn is_integer_value(given: &Given, argument: &Answer) -> Result<bool, NoMemory>
    ensures { IfOk result (λ found. found ≡ calls.value_has (layout_at given.now) (λ v. types.is_integer v.ctype) argument.now) }
{
    match used(given, argument)? {
        Answer::Gives { typed } => Ok(is_integer(&typed.ctype)),
        _ => Ok(true),
    }
}

/// Whether there is one argument, which is a scalar.
fn is_one_scalar(given: &Given, arguments: &[Argument]) -> Result<bool, NoMemory>
    ensures { IfOk result (λ found. found ≡ calls.is_one (layout_at given.now) types.is_scalar (answers_in arguments.now)) }
{
    match arguments {
        [] => Ok(false),
        [first, rest @ ..] => match rest {
            [] => {
                let found = is_scalar_value(given, &first.answer)?;
                Ok(found)
            }
            [_, ..] => Ok(false),
        },
    }
}

/// Whether there is one argument, which is an integer.
fn is_one_integer(given: &Given, arguments: &[Argument]) -> Result<bool, NoMemory>
    ensures { IfOk result (λ found. found ≡ calls.is_one (layout_at given.now) types.is_integer (answers_in arguments.now)) }
{
    match arguments {
        [] => Ok(false),
        [first, rest @ ..] => match rest {
            [] => {
                let found = is_integer_value(given, &first.answer)?;
                Ok(found)
            }
            [_, ..] => Ok(false),
        },
    }
}

/// Whether there are no arguments.
fn is_none(arguments: &[Argument]) -> bool
    ensures { result ≡ calls.is_none (answers_in arguments.now) }
{
    match arguments {
        [] => true,
        [_, ..] => false,
    }
}

/// Whether a known function takes these arguments.
fn known_takes(
    given: &Given,
    function: KnownFunction,
    arguments: &[Argument],
) -> Result<bool, NoMemory>
    ensures { IfOk result (λ found. found ≡ calls.known_takes (layout_at given.now) function (answers_in arguments.now)) }
{
    match function {
        KnownFunction::Assert | KnownFunction::Assume => {
            let found = is_one_scalar(given, arguments)?;
            Ok(found)
        }
        KnownFunction::Exit => {
            let found = is_one_integer(given, arguments)?;
            Ok(found)
        }
        KnownFunction::AssertFail => Ok(true),
        KnownFunction::Abort | KnownFunction::Error | KnownFunction::Nondet { .. } => {
            Ok(is_none(arguments))
        }
    }
}

/// Whether a function with the signature of this number, if it has one, takes these arguments.
fn numbered_takes(
    given: &Given,
    signature: Option<usize>,
    arguments: &[Argument],
) -> Result<bool, NoMemory>
    ensures { IfOk result (λ found. found ≡ calls.numbered_takes (layout_at given.now) given.now.names.now signature (answers_in arguments.now)) }
{
    match signature {
        None => Ok(true),
        Some(number) => match given.names.signatures.get(number) {
            None => Ok(true),
            Some(found) => {
                let parameters = found.parameters.as_slice();
                let fits = all_fit(given, parameters, found.is_variadic, arguments)?;
                Ok(fits)
            }
        },
    }
}

/// Whether a declared function takes these arguments.
fn function_takes(
    given: &Given,
    function: &Function,
    arguments: &[Argument],
) -> Result<bool, NoMemory>
    ensures { IfOk result (λ found. found ≡ calls.function_takes (layout_at given.now) given.now.names.now function.now (answers_in arguments.now)) }
{
    if function.is_defined {
        let found = numbered_takes(given, function.signature, arguments)?;
        return Ok(found);
    }
    match function.known {
        Some(known) => {
            let found = known_takes(given, known, arguments)?;
            Ok(found)
        }
        None => {
            let found = numbered_takes(given, function.signature, arguments)?;
            Ok(found)
        }
    }
}

/// Rule 5 of a call: the function has no body, and isn't known. Rule 7: the arguments don't fit.
fn function_pairs(
    given: &Given,
    name: usize,
    function: &Function,
    arguments: &[Argument],
) -> Result<Pairs, NoMemory>
    ensures { IfOk result (λ pairs. pairs ≡ calls.function_pairs (layout_at given.now) given.now.names.now name (Some function.now) (answers_in arguments.now)) }
{
    let has_body = function.is_defined || function.known.is_some();
    let mut pairs = pair_if(given.alloc, !has_body, name, 5)?;
    let takes = function_takes(given, function, arguments)?;
    let more = pair_if(given.alloc, !takes, name, 7)?;
    pairs.append(more)?;
    Ok(pairs)
}

/// The rules 5 and 7 of a call by a name.
pub fn call_pairs(given: &Given, name: usize, arguments: &[Argument]) -> Result<Pairs, NoMemory>
    ensures { let names = given.now.names.now in IfOk result (λ pairs. pairs ≡ calls.call_pairs (layout_at given.now) names name (typing.meaning_at names name) (answers_in arguments.now)) }
{
    match meaning_at(given.names, name) {
        Some(Meaning::Function { number }) => match given.names.functions.get(*number) {
            None => Ok(Sequence::new(given.alloc)),
            Some(function) => {
                let pairs = function_pairs(given, name, function, arguments)?;
                Ok(pairs)
            }
        },
        Some(Meaning::Known { function }) => {
            let takes = known_takes(given, *function, arguments)?;
            let pairs = pair_if(given.alloc, !takes, name, 7)?;
            Ok(pairs)
        }
        _ => Ok(Sequence::new(given.alloc)),
    }
}

//! Calls by their arguments, and sequences (C11 6.5.2.2, 6.5.17).

ghost use Rattle.std.specs.Prelude.{◌≡◌, IfOk, MatchOption};
ghost use Rattle.std.specs.Option.{option_copied};
ghost use Rattle.c_kinds.specs.declared.answer.Answer.{Answer as Answered};
ghost use Rattle.c_kinds.specs.declared.answer.Answer.TheVariants.{Breaks};
ghost use Rattle.c_kinds.specs.Values as values;
ghost use Rattle.c_rules.specs.Typing as spec;
ghost use Rattle.c_nodes.specs.Arguments.{after_argument, after_arguments};
ghost use Rattle.c_operators.specs.Told.{layout_at, told};

use crate::calls::{call_by, is_assert_fail};
use crate::names::{is_function_meaning, meaning_at, name_by};
use c_kinds::Answer;
use c_operators::{Given, comma, used};
use c_rules::Meaning;
use kv_base::NoMemory;

/// An argument of a call.
#[derive(Debug, Drop)]
pub struct Argument {
    pub answer: Answer,
    /// Whether it is a string.
    pub is_text: bool,
}

/// What an argument answers in place of the call, if it has no value and isn't a string that is left out.
#[tactic(auto, using(crate::proofs::Parts::used_gives, crate::proofs::Parts::used_breaks, crate::proofs::Parts::used_nothing))]
fn broken_argument(
    given: &Given,
    texts: bool,
    argument: &Argument,
) -> Result<Option<Answer>, NoMemory>
    ensures { let l = layout_at given.now in IfOk result (λ found. MatchOption found ((rest : Answered) → after_argument l texts argument.now rest ≡ rest) (λ broken. (rest : Answered) → after_argument l texts argument.now rest ≡ broken)) }
{
    if texts && argument.is_text {
        return Ok(None);
    }
    match used(given, &argument.answer)? {
        Answer::Gives { .. } => Ok(None),
        answer => Ok(Some(answer)),
    }
}

/// What the first argument answers in place of the call that has no value and isn't a string that is left out.
fn broken_arguments(
    given: &Given,
    texts: bool,
    arguments: &[Argument],
) -> Result<Option<Answer>, NoMemory>
    ensures { let l = layout_at given.now in IfOk result (λ found. MatchOption found ((rest : Answered) → after_arguments l texts arguments.now rest ≡ rest) (λ broken. (rest : Answered) → after_arguments l texts arguments.now rest ≡ broken)) }
{
    for argument in arguments {
        let found = broken_argument(given, texts, argument)?;
        match found {
            None => {}
            Some(broken) => return Ok(Some(broken)),
        }
    }
    Ok(None)
}

/// A call of what a name stands for, with these arguments.
fn called(
    given: &Given,
    is_unevaluated: bool,
    name: usize,
    at: usize,
    meaning: Option<&Meaning>,
    arguments: &[Argument],
) -> Result<Answer, NoMemory>
    ensures { let m = option_copied meaning.entry in let names = given.now.names.now in IfOk result (λ answer. answer ≡ after_arguments (layout_at given.now) (spec.is_assert_fail names m) arguments.now (spec.call_by names is_unevaluated name at m)) }
{
    let texts = is_assert_fail(given.names, meaning);
    match broken_arguments(given, texts, arguments)? {
        Some(broken) => Ok(broken),
        None => {
            let answer = call_by(given, is_unevaluated, name, at, meaning)?;
            Ok(answer)
        }
    }
}

/// A call by a name, at the `(`: what the name breaks itself comes first, then its arguments, then what the call breaks.
pub fn call_node(
    given: &Given,
    is_unevaluated: bool,
    name: usize,
    at: usize,
    arguments: &[Argument],
) -> Result<Answer, NoMemory>
    ensures { let g = told given.now in IfOk result (λ answer. answer ≡ spec.named_call g is_unevaluated (λ texts rest. after_arguments (layout_at given.now) texts arguments.now rest) name at (spec.meaning_at g.names name)) }
{
    let meaning = meaning_at(given.names, name);
    if !is_function_meaning(meaning) {
        match name_by(given, is_unevaluated, name, meaning)? {
            Answer::Gives { .. } => {}
            answer => return Ok(answer),
        }
    }
    let answer = called(given, is_unevaluated, name, at, meaning, arguments)?;
    Ok(answer)
}

/// A call of what is no name, at the `(`.
pub fn call_of_value(at: usize, function: &Answer) -> Answer
    ensures { result ≡ values.part function.now (λ _. Breaks 12 at) }
{
    match function {
        Answer::Gives { .. } => Answer::Breaks { rule: 12, at },
        _ => Answer::Nothing,
    }
}

/// A sequence of parts, at the first comma: each is a value, and the last one is that of the whole.
pub fn comma_node(given: &Given, at: usize, parts: &[Answer]) -> Result<Answer, NoMemory>
    ensures { IfOk result (λ answer. answer ≡ spec.sequence_answer (layout_at given.now) (λ x. x) at parts.now) }
{
    for (i, part) in parts.iter().enumerate() {
        match used(given, part)? {
            Answer::Gives { typed } => {
                if i + 1 == parts.len() {
                    let answer = comma(given.alloc, at, &typed)?;
                    return Ok(answer);
                }
            }
            answer => return Ok(answer),
        }
    }
    Ok(Answer::Breaks { rule: 12, at })
}

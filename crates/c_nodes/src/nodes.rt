//! What each kind of node answers, from the answers of its parts (C11 6.5).

ghost use Rattle.std.specs.Prelude.{◌≡◌, IfOk, if◌then◌else◌};
ghost use Rattle.c_kinds.specs.declared.answer.Answer.TheVariants.{Breaks};
ghost use Rattle.c_kinds.specs.Casts as casts;
ghost use Rattle.c_kinds.specs.Operands as operands;
ghost use Rattle.c_kinds.specs.Values as values;
ghost use Rattle.c_rules.specs.Typing as spec;
ghost use Rattle.c_operators.specs.Told.{IsCounted, layout_at};

use crate::names::cast_to_named;
use c_arithmetic::is_rows;
use c_kinds::{Answer, Typed};
use c_operators::{Given, assign, binary, conditional, sizeof_expression, step, used};
use c_tree::{AssignOperator, BinaryOperator};
use kv_base::NoMemory;

/// `++` or `--` behind an expression.
pub fn postfix_node(given: &Given, at: usize, operand: &Answer) -> Result<Answer, NoMemory>
    ensures { let l = layout_at given.now in IfOk result (λ answer. answer ≡ values.part operand.now (λ x. casts.step_answer l at at x)) }
{
    match operand {
        Answer::Gives { typed } => {
            let answer = step(given, at, at, typed)?;
            Ok(answer)
        }
        _ => Ok(Answer::Nothing),
    }
}

/// `++` or `--` before an expression.
pub fn prefix_node(given: &Given, at: usize, operand: &Answer) -> Result<Answer, NoMemory>
    ensures { let l = layout_at given.now in IfOk result (λ answer. answer ≡ values.part operand.now (λ x. casts.step_answer l at x.ends_at x)) }
{
    match operand {
        Answer::Gives { typed } => {
            let answer = step(given, at, typed.ends_at, typed)?;
            Ok(answer)
        }
        _ => Ok(Answer::Nothing),
    }
}

/// `sizeof` of an expression, which is the name of a function or not.
pub fn sizeof_node(given: &Given, at: usize, is_function: bool, operand: &Answer) -> Answer
    ensures { let l = layout_at given.now in result ≡ (if is_function then Breaks 16 at else values.part operand.now (λ x. operands.sizeof_answer l at x)) }
{
    if is_function {
        return Answer::Breaks { rule: 16, at };
    }
    match operand {
        Answer::Gives { typed } => sizeof_expression(given, at, typed),
        _ => Answer::Nothing,
    }
}

/// A cast to the type that is named at the `(`.
#[tactic(auto, using(crate::proofs::Parts::used_gives, crate::proofs::Parts::used_breaks, crate::proofs::Parts::used_nothing))]
pub fn cast_node(given: &Given, at: usize, operand: &Answer) -> Result<Answer, NoMemory>
    ensures { let l = layout_at given.now in IfOk result (λ answer. answer ≡ values.used l operand.now (λ v. spec.cast_to at (spec.meaning_at given.now.names.now at) v)) }
{
    match used(given, operand)? {
        Answer::Gives { typed } => {
            let answer = cast_to_named(given, at, &typed)?;
            Ok(answer)
        }
        answer => Ok(answer),
    }
}

/// The right operand of an operator whose left one has this value.
#[tactic(auto, using(crate::proofs::Parts::used_gives, crate::proofs::Parts::used_breaks, crate::proofs::Parts::used_nothing))]
fn right_operand(
    given: &Given,
    operator: BinaryOperator,
    at: usize,
    x: &Typed,
    right: &Answer,
) -> Result<Answer, NoMemory>
    requires { IsCounted (layout_at given.now) }
    ensures { let l = layout_at given.now in IfOk result (λ answer. answer ≡ values.used l right.now (λ y. operands.binary_answer l operator at x.now y)) }
{
    match used(given, right)? {
        Answer::Gives { typed } => {
            let answer = binary(given, operator, at, x, &typed)?;
            Ok(answer)
        }
        answer => Ok(answer),
    }
}

/// An operator between two operands.
#[tactic(auto, using(crate::proofs::Parts::used_gives, crate::proofs::Parts::used_breaks, crate::proofs::Parts::used_nothing))]
pub fn binary_node(
    given: &Given,
    operator: BinaryOperator,
    at: usize,
    left: &Answer,
    right: &Answer,
) -> Result<Answer, NoMemory>
    requires { IsCounted (layout_at given.now) }
    ensures { let l = layout_at given.now in IfOk result (λ answer. answer ≡ values.used l left.now (λ x. values.used l right.now (λ y. operands.binary_answer l operator at x y))) }
{
    match used(given, left)? {
        Answer::Gives { typed } => {
            let answer = right_operand(given, operator, at, &typed, right)?;
            Ok(answer)
        }
        answer => Ok(answer),
    }
}

/// The second arm of a choice whose test and first arm have these values.
#[tactic(auto, using(crate::proofs::Parts::used_gives, crate::proofs::Parts::used_breaks, crate::proofs::Parts::used_nothing))]
fn second_arm(
    given: &Given,
    at: usize,
    test: &Typed,
    x: &Typed,
    otherwise: &Answer,
) -> Result<Answer, NoMemory>
    ensures { let l = layout_at given.now in IfOk result (λ answer. answer ≡ values.used l otherwise.now (λ y. casts.conditional_answer at test.now x.now y)) }
{
    match used(given, otherwise)? {
        Answer::Gives { typed } => {
            let answer = conditional(given.alloc, at, test, x, &typed)?;
            Ok(answer)
        }
        answer => Ok(answer),
    }
}

/// The arms of a choice whose test has this value.
#[tactic(auto, using(crate::proofs::Parts::used_gives, crate::proofs::Parts::used_breaks, crate::proofs::Parts::used_nothing))]
fn arms(
    given: &Given,
    at: usize,
    test: &Typed,
    first: &Answer,
    otherwise: &Answer,
) -> Result<Answer, NoMemory>
    ensures { let l = layout_at given.now in IfOk result (λ answer. answer ≡ values.used l first.now (λ x. values.used l otherwise.now (λ y. casts.conditional_answer at test.now x y))) }
{
    match used(given, first)? {
        Answer::Gives { typed } => {
            let answer = second_arm(given, at, test, &typed, otherwise)?;
            Ok(answer)
        }
        answer => Ok(answer),
    }
}

/// A choice, at the `?`.
#[tactic(auto, using(crate::proofs::Parts::used_gives, crate::proofs::Parts::used_breaks, crate::proofs::Parts::used_nothing))]
pub fn conditional_node(
    given: &Given,
    at: usize,
    test: &Answer,
    first: &Answer,
    otherwise: &Answer,
) -> Result<Answer, NoMemory>
    ensures { let l = layout_at given.now in IfOk result (λ answer. answer ≡ values.used l test.now (λ t. values.used l first.now (λ x. values.used l otherwise.now (λ y. casts.conditional_answer at t x y)))) }
{
    match used(given, test)? {
        Answer::Gives { typed } => {
            let answer = arms(given, at, &typed, first, otherwise)?;
            Ok(answer)
        }
        answer => Ok(answer),
    }
}

/// What is assigned to a target.
#[tactic(auto, using(crate::proofs::Parts::used_gives, crate::proofs::Parts::used_breaks, crate::proofs::Parts::used_nothing))]
fn assigned_value(
    given: &Given,
    operator: AssignOperator,
    at: usize,
    x: &Typed,
    value: &Answer,
) -> Result<Answer, NoMemory>
    requires { IsCounted (layout_at given.now) }
    ensures { let l = layout_at given.now in IfOk result (λ answer. answer ≡ values.used l value.now (λ v. casts.assign_answer l operator at x.now v)) }
{
    match used(given, value)? {
        Answer::Gives { typed } => {
            let answer = assign(given, operator, at, x, &typed)?;
            Ok(answer)
        }
        answer => Ok(answer),
    }
}

/// An assignment. A target that is an array of arrays is left out, whatever the value is (6.5.16).
pub fn assign_node(
    given: &Given,
    operator: AssignOperator,
    at: usize,
    target: &Answer,
    value: &Answer,
) -> Result<Answer, NoMemory>
    requires { IsCounted (layout_at given.now) }
    ensures { IfOk result (λ answer. answer ≡ spec.assign_node (layout_at given.now) operator at target.now value.now) }
{
    match target {
        Answer::Gives { typed } => {
            if is_rows(&typed.ctype) {
                return Ok(Answer::Breaks {
                    rule: 9,
                    at: typed.named_at,
                });
            }
            let answer = assigned_value(given, operator, at, typed, value)?;
            Ok(answer)
        }
        _ => Ok(Answer::Nothing),
    }
}

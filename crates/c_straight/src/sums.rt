//! Sums of names and numbers (C11 6.5.6).

ghost use Rattle.std.specs.Prelude.{◌≡◌, IfOk, Some};
ghost use Rattle.c_straight.specs.Straight as spec;

use c_straight_model::{Addend, Operand, Sign, Sum};
use c_tree::{BinaryOperator, Expression};
use kv_base::{Copied, NoMemory, Sequence};
use kv_num::IntType;
use std::alloc::Global;

/// A constant of type `int` that isn't negative.
fn number(kind: IntType, value: i128) -> Option<Operand>
    ensures { result ≡ spec.number_of kind value }
{
    if kind != IntType::Int || !(0..=2_147_483_647).contains(&value) {
        return None;
    }
    Some(Operand::Number {
        value: value as u32,
    })
}

/// A name or a number.
pub fn operand(alloc: Global, x: &Expression) -> Result<Option<Operand>, NoMemory>
    ensures { IfOk result (λ made. made ≡ spec.operand_of x.now) }
{
    match x {
        Expression::Name { name, .. } => Ok(Some(Operand::Name {
            name: name.copy(alloc)?,
        })),
        Expression::Constant { kind, value, .. } => Ok(number(*kind, *value)),
        _ => Ok(None),
    }
}

/// The sign of an additive operator.
fn sign(operator: BinaryOperator) -> Option<Sign>
    ensures { result ≡ spec.sign_of operator }
{
    match operator {
        BinaryOperator::Add => Some(Sign::Plus),
        BinaryOperator::Subtract => Some(Sign::Minus),
        _ => None,
    }
}

/// What a sum is with a further operand.
fn with_addend(mut sum: Sum, sign: Sign, operand: Operand) -> Result<Sum, NoMemory>
    ensures { IfOk result (λ made. made ≡ spec.with_addend sum sign operand) }
{
    sum.rest.push(Addend { sign, operand })?;
    Ok(sum)
}

/// A sum of at most a given number of operands.
#[cycle(sum)]
pub fn sum(alloc: Global, depth: usize, x: &Expression) -> Result<Option<Sum>, NoMemory>
    ensures { IfOk result (λ made. made ≡ spec.sum_of depth x.now) }
{
    if depth == 0 {
        return Ok(None);
    }
    sum_by(alloc, depth - 1, x)
}

/// A sum whose left operand is a sum of at most a given number of operands.
#[cycle(sum)]
fn sum_by(alloc: Global, depth: usize, x: &Expression) -> Result<Option<Sum>, NoMemory>
    ensures { IfOk result (λ made. made ≡ spec.sum_by (spec.sum_of depth) x.now) }
{
    let Expression::Binary {
        operator,
        left,
        right,
        ..
    } = x
    else {
        return alone(alloc, x);
    };
    let Some(sign) = sign(*operator) else {
        return Ok(None);
    };
    let Some(sum) = sum(alloc, depth, left.get())? else {
        return Ok(None);
    };
    let Some(operand) = operand(alloc, right.get())? else {
        return Ok(None);
    };
    Ok(Some(with_addend(sum, sign, operand)?))
}

/// A sum of one operand.
fn alone(alloc: Global, x: &Expression) -> Result<Option<Sum>, NoMemory>
    ensures { IfOk result (λ made. made ≡ spec.and_then (spec.operand_of x.now) (λ o. Some (spec.alone o))) }
{
    let Some(first) = operand(alloc, x)? else {
        return Ok(None);
    };
    Ok(Some(Sum {
        first,
        rest: Sequence::new(alloc),
    }))
}

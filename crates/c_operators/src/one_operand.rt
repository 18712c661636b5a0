//! Operators with one operand (C11 6.5.3).

ghost use Rattle.std.specs.Prelude.{◌≡◌, IfOk};
ghost use Rattle.kv_num.specs.declared.types.IntType.TheVariants.{Int};
ghost use Rattle.c_tree.specs.declared.expression.UnaryOperator.TheVariants.{Not};
ghost use Rattle.c_kinds.specs.Constants as constants;
ghost use Rattle.c_kinds.specs.Layouts.{size_in_bytes};
ghost use Rattle.c_kinds.specs.Operands as spec;
ghost use Rattle.c_kinds.specs.Types as types;
ghost use Rattle.c_operators.specs.Told.{layout_at};

use crate::Given;
use crate::values::value_typed;
use c_arithmetic::{
    integer, is_array, is_scalar, pointer_to, promoted, shape_of, size_type, unary_operation,
    unary_value, wrapped_bytes,
};
use c_kinds::{Answer, CType, Fixed, Shape, Typed};
use c_tree::UnaryOperator;
use kv_base::{Copied, NoMemory};
use kv_num::IntType;
use std::alloc::Global;

/// `+`, `-` or `~` of a value: it promotes an integer (6.5.3.3).
pub fn arithmetic(alloc: Global, operator: UnaryOperator, at: usize, x: &Typed) -> Answer
    ensures { result ≡ spec.arithmetic operator at (types.shape_of x.now.ctype) x.now }
{
    match shape_of(&x.ctype) {
        Shape::Integer { kind } => {
            let kind = promoted(kind);
            let fixed = unary_value(operator, kind, x.fixed);
            Answer::Gives {
                typed: value_typed(integer(alloc, kind), fixed, at, x.ends_at),
            }
        }
        _ => Answer::Breaks { rule: 12, at },
    }
}

/// Whether a constant is 0, as one (6.5.3.3p5).
fn negated_truth(fixed: Fixed) -> Fixed
    ensures { result ≡ constants.of_one fixed (λ n. constants.unary_operation Not Int n) }
{
    match fixed {
        Fixed::Number { value } => unary_operation(UnaryOperator::Not, IntType::Int, value),
        Fixed::NoValue => Fixed::NoValue,
        _ => Fixed::Varies,
    }
}

/// `!` of a value: it takes an integer or a pointer (6.5.3.3p5).
pub fn negation(alloc: Global, at: usize, x: &Typed) -> Answer
    ensures { result ≡ spec.negation at x.now }
{
    if !is_scalar(&x.ctype) {
        return Answer::Breaks { rule: 12, at };
    }
    let fixed = negated_truth(x.fixed);
    Answer::Gives {
        typed: value_typed(integer(alloc, IntType::Int), fixed, at, x.ends_at),
    }
}

/// `&` of an lvalue. A pointer to an array is left out (6.5.3.2p1).
pub fn address(alloc: Global, at: usize, x: &Typed) -> Result<Answer, NoMemory>
    ensures { IfOk result (λ answer. answer ≡ spec.address_answer at x.now) }
{
    if is_array(&x.ctype) {
        return Ok(Answer::Breaks {
            rule: 9,
            at: x.named_at,
        });
    }
    if !x.is_place {
        return Ok(Answer::Breaks { rule: 14, at });
    }
    let copied = x.ctype.copy(alloc)?;
    let ctype = pointer_to(copied)?;
    Ok(Answer::Gives {
        typed: value_typed(ctype, x.address, at, x.ends_at),
    })
}

/// The size of an object of a type, as an unsigned long, which wraps like one (6.5.3.4p2).
fn size(given: &Given, at: usize, ends_at: usize, ctype: &CType) -> Answer
    ensures { let l = layout_at given.now in result ≡ spec.size_answer l at ends_at (size_in_bytes l.model ctype.now) }
{
    match wrapped_bytes(given.model, ctype) {
        None => Answer::Breaks { rule: 16, at },
        Some(value) => Answer::Gives {
            typed: value_typed(
                integer(given.alloc, size_type(given.model)),
                Fixed::Number { value },
                at,
                ends_at,
            ),
        },
    }
}

/// `sizeof` of an expression, which isn't evaluated, and in which an array stays one (6.5.3.4).
pub fn sizeof_expression(given: &Given, at: usize, x: &Typed) -> Answer
    ensures { result ≡ spec.sizeof_answer (layout_at given.now) at x.now }
{
    size(given, at, x.ends_at, &x.ctype)
}

/// `sizeof` of a type name (6.5.3.4). `star` is the `*` of a pointer that is left out but in a cast of 0.
pub fn sizeof_type(given: &Given, at: usize, star: Option<usize>, ctype: &CType) -> Answer
    ensures { result ≡ spec.sizeof_type_answer (layout_at given.now) at star ctype.now }
{
    match star {
        Some(star) => Answer::Breaks { rule: 9, at: star },
        None => size(given, at, at, ctype),
    }
}

ghost use Rattle.std.specs.Prelude.{◌≡◌, IfSome};
ghost use Rattle.term_core.specs.Shape.{IsShape, HasShape};
ghost use Rattle.term_core.specs.Term.{truth, binary_value, fits_value, OperandsFit};
ghost use Rattle.term_fold.specs.Picks.{IsFor, IsPickOf, IsFitsPick};

use crate::computed::{arithmetic, fitting, shifted};
use crate::operands::{Operands, Pick};
use crate::rules::ruled;
use term_core::{BinaryOp, Shape};

/// The result of an operation on two constants, if C defines it.
fn constant(shape: Shape, other: Shape, op: BinaryOp, a: i128, b: i128) -> Option<i128>
    requires valid { IsShape shape }
    requires left { HasShape shape a }
    requires right { HasShape other b }
    requires shapes { OperandsFit op shape other }
    ensures { IfSome result (λ n. n ≡ binary_value shape other op a b) }
{
    match op {
        BinaryOp::ShiftLeft | BinaryOp::ShiftRight => shifted(shape, other, op, a, b),
        _ => arithmetic(shape, op, a, b),
    }
}

/// What an operation comes to where both operands are constants.
fn computed(op: BinaryOp, o: Operands) -> Pick
    requires { IsFor op o }
    ensures { IsPickOf op o result }
{
    let Some(a) = o.left else {
        return Pick::Neither;
    };
    let Some(b) = o.right else {
        return Pick::Neither;
    };
    match constant(o.shape, o.other, op, a, b) {
        Some(number) => Pick::Number(number),
        None => Pick::Neither,
    }
}

/// What an operation comes to.
pub(crate) fn picked(op: BinaryOp, o: Operands) -> Pick
    requires { IsFor op o }
    ensures { IsPickOf op o result }
{
    match computed(op, o) {
        Pick::Neither => ruled(op, o),
        found => found,
    }
}

/// What a test of whether a result fits comes to: a truth, where both operands are constants or every
/// result fits.
pub(crate) fn fits_picked(op: BinaryOp, o: Operands) -> Pick
    requires { IsFor op o }
    ensures { IsFitsPick op o result }
{
    match op {
        BinaryOp::ShiftRight
        | BinaryOp::BitAnd
        | BinaryOp::BitOr
        | BinaryOp::BitXor
        | BinaryOp::Less
        | BinaryOp::Equal => return Pick::Number(1),
        _ => {}
    }
    let Some(a) = o.left else {
        return Pick::Neither;
    };
    let Some(b) = o.right else {
        return Pick::Neither;
    };
    match fitting(o.shape, o.other, op, a, b) {
        Some(fits) => Pick::Number(fits as i128),
        None => Pick::Neither,
    }
}

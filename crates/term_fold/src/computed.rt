ghost use Rattle.std.specs.Prelude.{◌≡◌, IfSome};
ghost use Rattle.term_core.specs.declared.term.BinaryOp.TheVariants as Op;
ghost use Rattle.term_core.specs.Shape.{IsShape, HasShape};
ghost use Rattle.term_core.specs.Term.{unary_value, binary_value, fits_value, OperandsFit};

use term_core::{BinaryOp, Shape, UnaryOp};

/// The result of an operation on a constant.
pub(crate) fn unary(shape: Shape, op: UnaryOp, a: i128) -> i128
    requires valid { IsShape shape }
    requires has { HasShape shape a }
    ensures { result ≡ unary_value shape op a }
{
    match op {
        UnaryOp::Negate => kv_num::sub_at(shape.width, shape.signed, 0, a).value,
        UnaryOp::BitNot => kv_num::bit_not_at(shape.width, shape.signed, a),
    }
}

/// The result of an operation on two constants of a shape, if C defines it.
#[tactic(auto, using(crate::proofs::Constants::rem_constant))]
pub(crate) fn arithmetic(shape: Shape, op: BinaryOp, a: i128, b: i128) -> Option<i128>
    requires valid { IsShape shape }
    requires left { HasShape shape a }
    requires right { HasShape shape b }
    ensures { IfSome result (λ n. n ≡ binary_value shape shape op a b) }
{
    match op {
        BinaryOp::Add => Some(kv_num::add_at(shape.width, shape.signed, a, b).value),
        BinaryOp::Sub => Some(kv_num::sub_at(shape.width, shape.signed, a, b).value),
        BinaryOp::Mul => Some(kv_num::mul_at(shape.width, shape.signed, a, b).value),
        BinaryOp::Div if b != 0 => Some(kv_num::div_at(shape.width, shape.signed, a, b).value),
        BinaryOp::Rem if b != 0 => Some(kv_num::rem_at(shape.width, shape.signed, a, b).value),
        BinaryOp::BitAnd => Some(kv_num::bit_and_at(shape.width, shape.signed, a, b)),
        BinaryOp::BitOr => Some(kv_num::bit_or_at(shape.width, shape.signed, a, b)),
        BinaryOp::BitXor => Some(kv_num::bit_xor_at(shape.width, shape.signed, a, b)),
        BinaryOp::Less => Some((a < b) as i128),
        BinaryOp::Equal => Some((a == b) as i128),
        BinaryOp::Div | BinaryOp::Rem | BinaryOp::ShiftLeft | BinaryOp::ShiftRight => None,
    }
}

/// The result of a shift of a constant of a shape by a constant distance, if C defines it.
#[tactic(auto, using(crate::proofs::Constants::shl_constant, crate::proofs::Constants::shr_constant))]
pub(crate) fn shifted(shape: Shape, other: Shape, op: BinaryOp, a: i128, b: i128) -> Option<i128>
    requires valid { IsShape shape }
    requires left { HasShape shape a }
    requires right { HasShape other b }
    ensures { IfSome result (λ n. n ≡ binary_value shape other op a b) }
{
    if b < 0 || b >= shape.width as i128 {
        return None;
    }
    match op {
        BinaryOp::ShiftLeft => Some(kv_num::shl_at(shape.width, shape.signed, a, b as u32).value),
        BinaryOp::ShiftRight => Some(kv_num::shr_at(shape.width, shape.signed, a, b as u32)),
        _ => None,
    }
}

/// Whether the exact result of an operation on two constants of a shape fits it, if C defines the
/// operation. A negative constant shifted to the left never fits.
#[tactic(auto, using(crate::proofs::Constants::fits_constant, crate::proofs::Constants::fits_quotient))]
pub(crate) fn fitting(shape: Shape, other: Shape, op: BinaryOp, a: i128, b: i128) -> Option<bool>
    requires valid { IsShape shape }
    requires left { HasShape shape a }
    requires right { HasShape other b }
    requires shapes { OperandsFit op shape other }
    ensures { IfSome result (λ fits. fits ≡ fits_value shape other op a b) }
{
    match op {
        BinaryOp::Add => Some(kv_num::add_at(shape.width, shape.signed, a, b).fits),
        BinaryOp::Sub => Some(kv_num::sub_at(shape.width, shape.signed, a, b).fits),
        BinaryOp::Mul => Some(kv_num::mul_at(shape.width, shape.signed, a, b).fits),
        BinaryOp::Div if b != 0 => Some(kv_num::div_at(shape.width, shape.signed, a, b).fits),
        BinaryOp::Rem if b != 0 => Some(kv_num::rem_at(shape.width, shape.signed, a, b).fits),
        BinaryOp::ShiftLeft => shift_fitting(shape, other, a, b),
        _ => None,
    }
}

/// Whether the exact result of a left shift of a constant of a shape by a constant distance fits it, if C
/// defines it. That of a negative one never does.
fn shift_fitting(shape: Shape, other: Shape, a: i128, b: i128) -> Option<bool>
    requires valid { IsShape shape }
    requires left { HasShape shape a }
    requires right { HasShape other b }
    ensures { IfSome result (λ fits. fits ≡ fits_value shape other Op.ShiftLeft a b) }
{
    if b < 0 || b >= shape.width as i128 {
        return None;
    }
    Some(kv_num::shl_at(shape.width, shape.signed, a, b as u32).fits)
}

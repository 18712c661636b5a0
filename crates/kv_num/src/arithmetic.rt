ghost use Rattle.std.specs.Prelude.{◌≡◌, ◌≢◌, ◌↔◌, ◌<◌, ◌≤◌, pos, ◌+ℤ◌, ◌-ℤ◌, ◌*ℤ◌, IsTrue};
ghost use Rattle.kv_num.specs.Shape.{InShape, wrap_at};
ghost use Rattle.kv_num.specs.Quotient.{quotient_of, remainder_of};

use crate::Num;
use crate::wraps::{fits_at, shaped, wrap_at};

/// The sum of two numbers of a shape (6.5.6).
pub fn add_at(width: u32, signed: bool, a: i128, b: i128) -> Num
    requires some { 0 < width }
    requires few { width ≤ 64 }
    requires left { InShape width signed a }
    requires right { InShape width signed b }
    ensures value { result.value ≡ wrap_at width signed (a +ℤ b) }
    ensures range { InShape width signed result.value }
    ensures fits { IsTrue result.fits ↔ InShape width signed (a +ℤ b) }
{
    shaped(width, signed, a + b)
}

/// The difference of two numbers of a shape (6.5.6).
pub fn sub_at(width: u32, signed: bool, a: i128, b: i128) -> Num
    requires some { 0 < width }
    requires few { width ≤ 64 }
    requires left { InShape width signed a }
    requires right { InShape width signed b }
    ensures value { result.value ≡ wrap_at width signed (a -ℤ b) }
    ensures range { InShape width signed result.value }
    ensures fits { IsTrue result.fits ↔ InShape width signed (a -ℤ b) }
{
    shaped(width, signed, a - b)
}

/// The product of two numbers of a shape (6.5.5).
pub fn mul_at(width: u32, signed: bool, a: i128, b: i128) -> Num
    requires some { 0 < width }
    requires few { width ≤ 64 }
    requires left { InShape width signed a }
    requires right { InShape width signed b }
    ensures value { result.value ≡ wrap_at width signed (a *ℤ b) }
    ensures range { InShape width signed result.value }
    ensures fits { IsTrue result.fits ↔ InShape width signed (a *ℤ b) }
{
    let (product, is_over) = a.overflowing_mul(b);
    Num {
        value: wrap_at(width, signed, product),
        fits: !is_over && fits_at(width, signed, product),
    }
}

/// The quotient of two numbers of a shape, truncated toward zero (6.5.5). Only the least number of a
/// signed type divided by -1 does not fit.
pub fn div_at(width: u32, signed: bool, a: i128, b: i128) -> Num
    requires some { 0 < width }
    requires few { width ≤ 64 }
    requires left { InShape width signed a }
    requires right { InShape width signed b }
    requires divisor { b ≢ pos 0 }
    ensures value { result.value ≡ wrap_at width signed (quotient_of a b) }
    ensures range { InShape width signed result.value }
    ensures fits { IsTrue result.fits ↔ InShape width signed (quotient_of a b) }
{
    shaped(width, signed, a / b)
}

/// The remainder of two numbers of a shape, which has the sign of `a` (6.5.5). It fits where the
/// quotient does.
pub fn rem_at(width: u32, signed: bool, a: i128, b: i128) -> Num
    requires some { 0 < width }
    requires few { width ≤ 64 }
    requires left { InShape width signed a }
    requires right { InShape width signed b }
    requires divisor { b ≢ pos 0 }
    ensures value { result.value ≡ remainder_of a b }
    ensures range { InShape width signed result.value }
    ensures fits { IsTrue result.fits ↔ InShape width signed (quotient_of a b) }
{
    Num {
        value: a % b,
        fits: fits_at(width, signed, a / b),
    }
}

//! The arithmetic of the integer types of C: that of their widths and signednesses.
ghost use Rattle.std.specs.Prelude.{◌≡◌, ◌≢◌, ◌↔◌, ◌<◌, ◌&&◌, ◌||◌, not, ℕ, pos, ◌+ℤ◌, ◌-ℤ◌, ◌*ℤ◌, ◌≤ℤ◌, IsTrue};
ghost use Rattle.kv_num.specs.IntType.{width_of, InRange, wrap_of, and_of, or_of, xor_of, not_of};
ghost use Rattle.kv_num.specs.Quotient.{quotient_of, remainder_of};
ghost use Rattle.kv_num.specs.Bits.{bit_of, differ};
ghost use Rattle.kv_num.specs.Shift.{left_of, right_of};

use crate::arithmetic::{add_at, div_at, mul_at, rem_at, sub_at};
use crate::bitwise::{bit_and_at, bit_not_at, bit_or_at, bit_xor_at};
use crate::shifts::{shl_at, shr_at};
use crate::types::{is_signed, width};
use crate::wraps::{fits_at, wrap_at};
use crate::{IntType, Num};

/// The number of the type's range that equals `n` modulo 2 to the type's width (6.3.1.3).
pub fn wrap(t: IntType, n: i128) -> i128
    ensures value { result ≡ wrap_of t n }
    ensures range { InRange t result }
{
    wrap_at(width(t), is_signed(t), n)
}

/// Whether a number is in the type's range.
pub fn fits(t: IntType, n: i128) -> bool
    ensures { IsTrue result ↔ InRange t n }
{
    fits_at(width(t), is_signed(t), n)
}

/// The sum of two numbers of a type (6.5.6).
pub fn add(t: IntType, a: i128, b: i128) -> Num
    requires left { InRange t a }
    requires right { InRange t b }
    ensures value { result.value ≡ wrap_of t (a +ℤ b) }
    ensures range { InRange t result.value }
    ensures fits { IsTrue result.fits ↔ InRange t (a +ℤ b) }
{
    add_at(width(t), is_signed(t), a, b)
}

/// The difference of two numbers of a type (6.5.6).
pub fn sub(t: IntType, a: i128, b: i128) -> Num
    requires left { InRange t a }
    requires right { InRange t b }
    ensures value { result.value ≡ wrap_of t (a -ℤ b) }
    ensures range { InRange t result.value }
    ensures fits { IsTrue result.fits ↔ InRange t (a -ℤ b) }
{
    sub_at(width(t), is_signed(t), a, b)
}

/// The product of two numbers of a type (6.5.5).
pub fn mul(t: IntType, a: i128, b: i128) -> Num
    requires left { InRange t a }
    requires right { InRange t b }
    ensures value { result.value ≡ wrap_of t (a *ℤ b) }
    ensures range { InRange t result.value }
    ensures fits { IsTrue result.fits ↔ InRange t (a *ℤ b) }
{
    mul_at(width(t), is_signed(t), a, b)
}

/// The quotient of two numbers of a type, truncated toward zero (6.5.5). Only the least number of a
/// signed type divided by -1 does not fit.
pub fn div(t: IntType, a: i128, b: i128) -> Num
    requires left { InRange t a }
    requires right { InRange t b }
    requires divisor { b ≢ pos 0 }
    ensures value { result.value ≡ wrap_of t (quotient_of a b) }
    ensures range { InRange t result.value }
    ensures fits { IsTrue result.fits ↔ InRange t (quotient_of a b) }
{
    div_at(width(t), is_signed(t), a, b)
}

/// The remainder of two numbers of a type, which has the sign of `a` (6.5.5). It fits where the
/// quotient does.
pub fn rem(t: IntType, a: i128, b: i128) -> Num
    requires left { InRange t a }
    requires right { InRange t b }
    requires divisor { b ≢ pos 0 }
    ensures value { result.value ≡ remainder_of a b }
    ensures range { InRange t result.value }
    ensures fits { IsTrue result.fits ↔ InRange t (quotient_of a b) }
{
    rem_at(width(t), is_signed(t), a, b)
}

/// The bits that two numbers of a type have both (6.5.10).
pub fn bit_and(t: IntType, a: i128, b: i128) -> i128
    requires left { InRange t a }
    requires right { InRange t b }
    ensures value { result ≡ and_of t a b }
    ensures range { InRange t result }
    ensures bits { (k : ℕ) → bit_of result k ≡ (bit_of a k && bit_of b k) }
{
    bit_and_at(width(t), is_signed(t), a, b)
}

/// The bits that one of two numbers of a type has, or both (6.5.12).
pub fn bit_or(t: IntType, a: i128, b: i128) -> i128
    requires left { InRange t a }
    requires right { InRange t b }
    ensures value { result ≡ or_of t a b }
    ensures range { InRange t result }
    ensures bits { (k : ℕ) → bit_of result k ≡ (bit_of a k || bit_of b k) }
{
    bit_or_at(width(t), is_signed(t), a, b)
}

/// The bits that one of two numbers of a type has, and not both (6.5.11).
pub fn bit_xor(t: IntType, a: i128, b: i128) -> i128
    requires left { InRange t a }
    requires right { InRange t b }
    ensures value { result ≡ xor_of t a b }
    ensures range { InRange t result }
    ensures bits { (k : ℕ) → bit_of result k ≡ differ (bit_of a k) (bit_of b k) }
{
    bit_xor_at(width(t), is_signed(t), a, b)
}

/// The bits of a type that a number of it has not (6.5.3.3).
pub fn bit_not(t: IntType, a: i128) -> i128
    requires { InRange t a }
    ensures value { result ≡ not_of t a }
    ensures range { InRange t result }
    ensures bits { (k : ℕ) → k < width_of t → bit_of result k ≡ not (bit_of a k) }
{
    bit_not_at(width(t), is_signed(t), a)
}

/// A number of a type times 2 to a distance below the type's width (6.5.7). A negative number never
/// fits.
pub fn shl(t: IntType, a: i128, d: u32) -> Num
    requires left { InRange t a }
    requires distance { d < width_of t }
    ensures value { result.value ≡ wrap_of t (left_of a d) }
    ensures range { InRange t result.value }
    ensures fits { IsTrue result.fits ↔ ((pos 0 ≤ℤ a) × InRange t (left_of a d)) }
{
    shl_at(width(t), is_signed(t), a, d)
}

/// A number of a type divided by 2 to a distance below the type's width, rounded down (6.5.7).
pub fn shr(t: IntType, a: i128, d: u32) -> i128
    requires left { InRange t a }
    requires distance { d < width_of t }
    ensures value { result ≡ right_of a d }
    ensures range { InRange t result }
{
    shr_at(width(t), is_signed(t), a, d)
}

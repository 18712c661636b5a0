ghost use Rattle.std.specs.Prelude.{◌≡◌, ◌<◌, ◌≤◌, ◌&&◌, ◌||◌, not, ℕ};
ghost use Rattle.kv_num.specs.Shape.{InShape, and_at, or_at, xor_at, not_at};
ghost use Rattle.kv_num.specs.Bits.{bit_of, differ};

use crate::wraps::wrap_at;

/// The bits that two numbers of a shape have both (6.5.10).
pub fn bit_and_at(width: u32, signed: bool, a: i128, b: i128) -> i128
    requires some { 0 < width }
    requires few { width ≤ 64 }
    requires left { InShape width signed a }
    requires right { InShape width signed b }
    ensures value { result ≡ and_at width signed a b }
    ensures range { InShape width signed result }
    ensures bits { (k : ℕ) → bit_of result k ≡ (bit_of a k && bit_of b k) }
{
    a & b
}

/// The bits that one of two numbers of a shape has, or both (6.5.12).
pub fn bit_or_at(width: u32, signed: bool, a: i128, b: i128) -> i128
    requires some { 0 < width }
    requires few { width ≤ 64 }
    requires left { InShape width signed a }
    requires right { InShape width signed b }
    ensures value { result ≡ or_at width signed a b }
    ensures range { InShape width signed result }
    ensures bits { (k : ℕ) → bit_of result k ≡ (bit_of a k || bit_of b k) }
{
    a | b
}

/// The bits that one of two numbers of a shape has, and not both (6.5.11).
pub fn bit_xor_at(width: u32, signed: bool, a: i128, b: i128) -> i128
    requires some { 0 < width }
    requires few { width ≤ 64 }
    requires left { InShape width signed a }
    requires right { InShape width signed b }
    ensures value { result ≡ xor_at width signed a b }
    ensures range { InShape width signed result }
    ensures bits { (k : ℕ) → bit_of result k ≡ differ (bit_of a k) (bit_of b k) }
{
    a ^ b
}

/// The bits of a shape that a number of it has not (6.5.3.3).
pub fn bit_not_at(width: u32, signed: bool, a: i128) -> i128
    requires some { 0 < width }
    requires few { width ≤ 64 }
    requires of { InShape width signed a }
    ensures value { result ≡ not_at width signed a }
    ensures range { InShape width signed result }
    ensures bits { (k : ℕ) → k < width → bit_of result k ≡ not (bit_of a k) }
{
    wrap_at(width, signed, !a)
}

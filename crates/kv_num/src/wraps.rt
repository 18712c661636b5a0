ghost use Rattle.std.specs.Prelude.{◌≡◌, ◌↔◌, ◌<◌, ◌≤◌, ◌^◌, pos, IsTrue};
ghost use Rattle.kv_num.specs.Shape.{below_at, InShape, wrap_at};

use crate::Num;

/// How many numbers a width has.
fn size(width: u32) -> i128
    requires { width ≤ 64 }
    ensures value { result ≡ pos (2 ^ width) }
    ensures bound { 2 ^ width ≤ 2 ^ 64 }
{
    1 << width
}

/// How many numbers of a shape are negative.
fn below(width: u32, signed: bool) -> i128
    requires some { 0 < width }
    requires few { width ≤ 64 }
    ensures value { result ≡ pos (below_at width signed) }
    ensures bound { below_at width signed ≤ 2 ^ 63 }
{
    if signed { 1 << (width - 1) } else { 0 }
}

/// The number of a shape that equals `n` modulo 2 to the shape's width (6.3.1.3).
pub fn wrap_at(width: u32, signed: bool, n: i128) -> i128
    requires some { 0 < width }
    requires few { width ≤ 64 }
    ensures value { result ≡ wrap_at width signed n }
    ensures range { InShape width signed result }
{
    let size = size(width);
    let below = below(width, signed);
    (n.rem_euclid(size) + below).rem_euclid(size) - below
}

/// Whether a number has a shape.
pub fn fits_at(width: u32, signed: bool, n: i128) -> bool
    requires some { 0 < width }
    requires few { width ≤ 64 }
    ensures { IsTrue result ↔ InShape width signed n }
{
    let below = below(width, signed);
    -below <= n && n < size(width) - below
}

/// An exact result as a number of a shape.
pub(crate) fn shaped(width: u32, signed: bool, exact: i128) -> Num
    requires some { 0 < width }
    requires few { width ≤ 64 }
    ensures value { result.value ≡ wrap_at width signed exact }
    ensures range { InShape width signed result.value }
    ensures fits { IsTrue result.fits ↔ InShape width signed exact }
{
    Num {
        value: wrap_at(width, signed, exact),
        fits: fits_at(width, signed, exact),
    }
}

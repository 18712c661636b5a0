ghost use Rattle.std.specs.Prelude.{◌≡◌, ◌<◌, ◌≤◌, ◌↔◌, pos, ◌≤ℤ◌, IsTrue};
ghost use Rattle.kv_num.specs.Shape.{InShape, wrap_at};
ghost use Rattle.kv_num.specs.Shift.{left_of, right_of};

use crate::Num;
use crate::wraps::shaped;

/// A number of a shape times 2 to a distance below the shape's width (6.5.7). A negative number never
/// fits.
pub fn shl_at(width: u32, signed: bool, a: i128, d: u32) -> Num
    requires some { 0 < width }
    requires few { width ≤ 64 }
    requires left { InShape width signed a }
    requires distance { d < width }
    ensures value { result.value ≡ wrap_at width signed (left_of a d) }
    ensures range { InShape width signed result.value }
    ensures fits { IsTrue result.fits ↔ ((pos 0 ≤ℤ a) × InShape width signed (left_of a d)) }
{
    let num = shaped(width, signed, a * (1 << d));
    Num {
        fits: 0 <= a && num.fits,
        ..num
    }
}

/// A number of a shape divided by 2 to a distance below the shape's width, rounded down (6.5.7).
pub fn shr_at(width: u32, signed: bool, a: i128, d: u32) -> i128
    requires some { 0 < width }
    requires few { width ≤ 64 }
    requires left { InShape width signed a }
    requires distance { d < width }
    ensures value { result ≡ right_of a d }
    ensures range { InShape width signed result }
{
    a >> d
}

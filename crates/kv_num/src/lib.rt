//! Numbers of a width and a signedness, the integer types of C by them, and their arithmetic as whole numbers with a
//! range test.
//!
//! A number of a shape or a type is an `i128` in its range. No call takes memory, and none can fail.
//! Sections are those of C11 (ISO/IEC 9899:2011).
#![tactic(auto)]

mod arithmetic;
mod bitwise;
mod laws;
mod shape_laws;
mod shifts;
mod typed;
mod types;
mod wraps;

pub use arithmetic::{add_at, div_at, mul_at, rem_at, sub_at};
pub use bitwise::{bit_and_at, bit_not_at, bit_or_at, bit_xor_at};
pub use laws::{
    bits_combine, bits_make_numbers, division_goes_by_sign, patterns_compute, patterns_read_bits,
    results_are_in_range, shifts_are_products, wrap_absorbs_wrap, wrap_is_unique,
};
pub use shape_laws::{types_are_shapes, wrap_at_absorbs, wrap_at_is_unique};
pub use shifts::{shl_at, shr_at};
pub use typed::{add, bit_and, bit_not, bit_or, bit_xor, div, fits, mul, rem, shl, shr, sub, wrap};
pub use types::{IntType, Num, is_signed, width};
pub use wraps::{fits_at, wrap_at};

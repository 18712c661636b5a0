//! Enumeration constants (C11 6.7.2.2).

ghost use Rattle.std.specs.Prelude.{◌≡◌, IfOk, OnOk};
ghost use Rattle.kv_num.specs.declared.types.IntType.TheVariants.{Int};
ghost use Rattle.c_kinds.specs.Integers.{is_in_range};
ghost use Rattle.c_rules.specs.Tags as spec;

use crate::known::is_known_in_file;
use c_rules::{Declares, Meaning};
use c_scopes::State;
use kv_base::{Bytes, Copied, NoMemory};
use kv_num::{IntType, wrap};

/// Whether a number is in the range of `int`.
fn is_int(n: i128) -> bool
    ensures { result ≡ is_in_range Int n }
{
    wrap(IntType::Int, n) == n
}

/// A value that is in the range of `int`.
fn in_int(value: Option<i128>) -> Option<i128>
    ensures { result ≡ spec.in_int value }
{
    match value {
        Some(n) => {
            if is_int(n) {
                return Some(n);
            }
            None
        }
        None => None,
    }
}

/// Whether a value is known and is outside the range of `int`.
fn is_outside_int(value: Option<i128>) -> bool
    ensures { result ≡ spec.is_outside_int value }
{
    match value {
        Some(n) => !is_int(n),
        None => false,
    }
}

/// The value of the next constant, after one of this value.
fn next_value(value: Option<i128>) -> Option<i128>
    ensures { result ≡ spec.one_more (spec.in_int value) }
{
    match value {
        Some(n) => {
            if wrap(IntType::Int, n) == n {
                return Some(n + 1);
            }
            None
        }
        None => None,
    }
}

/// An enumeration constant of this value, if it is known, which begins at this place. The value of the next one, if it is
/// known.
pub fn counts(
    st: &mut State,
    name: &Bytes,
    at: usize,
    place: usize,
    value: Option<i128>,
) -> Result<Option<i128>, NoMemory>
    ensures state { OnOk result (st.new ≡ (spec.counts name.now at place value st.old).state) }
    ensures following { IfOk result (λ next. next ≡ (spec.counts name.now at place value st.old).next) }
{
    let is_known = is_known_in_file(st, name.as_slice());
    let is_declared = st.find_here(name.as_slice()).is_some();
    let stands = in_int(value);
    st.note_if(is_outside_int(value), place, 25)?;
    st.note_if(is_known, at, 23)?;
    st.note_if(is_declared, at, 4)?;
    st.mean(at, Meaning::Constant { value: stands })?;
    let name = name.copy(st.alloc())?;
    st.declare(name, Declares::Constant { value: stands })?;
    Ok(next_value(value))
}

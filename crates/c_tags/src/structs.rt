//! Structs from their tags to their ends (C11 6.7.2.1, 6.7.2.3).

ghost use Rattle.std.specs.Prelude.{◌≡◌, ◌+◌, None, IfOk, OnOk};
ghost use Rattle.std.specs.Option.{option_copied};
ghost use Rattle.c_kinds.specs.Layouts.{cell_count};
ghost use Rattle.c_rules.specs.Scopes as scope;
ghost use Rattle.c_rules.specs.Tags as spec;
ghost use Rattle.c_tags.specs.Parts.{exceeds};

use c_arithmetic::{cell_count, plain};
use c_kinds::{Base, CType, MAX_OBJECT_CELLS, Struct};
use c_rules::Declares;
use c_scopes::State;
use kv_base::{Bytes, Copied, NoMemory};

/// A rule is broken at the token after this one. Tokens past what a number can count are want of memory.
pub fn note_next(st: &mut State, at: usize, rule: u8) -> Result<(), NoMemory>
    ensures { OnOk result (st.new ≡ scope.note (at + 1) rule st.old) }
{
    if at == usize::MAX {
        return Err(NoMemory);
    }
    st.note(at + 1, rule)
}

/// A new struct in place of one whose tag, the next token, can't be completed.
fn struct_again(st: &mut State, at: usize) -> Result<usize, NoMemory>
    ensures state { OnOk result (st.new ≡ (spec.new_struct None (scope.note (at + 1) 4 st.old)).state) }
    ensures number { IfOk result (λ number. number ≡ (spec.new_struct None (scope.note (at + 1) 4 st.old)).number) }
{
    note_next(st, at, 4)?;
    st.new_struct(None)
}

/// The struct of a tag, which is the next token and is completed once in a block.
fn struct_found(st: &mut State, tag: &Bytes, at: usize) -> Result<usize, NoMemory>
    ensures state { OnOk result (st.new ≡ (spec.struct_found tag.now at st.old (scope.find_here st.old.tags tag.now)).state) }
    ensures number { IfOk result (λ number. number ≡ (spec.struct_found tag.now at st.old (scope.find_here st.old.tags tag.now)).number) }
{
    match st.find_tag_here(tag.as_slice()) {
        Some(entry) => match &entry.declares {
            Declares::Struct { number } => {
                let number = *number;
                if st.has_begun(number) {
                    return struct_again(st, at);
                }
                Ok(number)
            }
            _ => struct_again(st, at),
        },
        None => {
            let tag = tag.copy(st.alloc())?;
            st.new_struct(Some(tag))
        }
    }
}

/// The struct whose members follow: its number.
pub fn begins_struct(st: &mut State, tag: Option<&Bytes>, at: usize) -> Result<usize, NoMemory>
    ensures state { OnOk result (st.new ≡ (spec.begins_struct (option_copied tag.entry) at st.old).state) }
    ensures number { IfOk result (λ number. number ≡ (spec.begins_struct (option_copied tag.entry) at st.old).number) }
{
    match tag {
        Some(tag) => {
            let number = struct_found(st, tag, at)?;
            st.begin(number)?;
            Ok(number)
        }
        None => {
            let number = st.new_struct(None)?;
            st.begin(number)?;
            Ok(number)
        }
    }
}

/// Whether objects of a type have more cells than an object may have.
#[tactic(auto, using(crate::proofs::Cells::exceeds_capped))]
pub fn is_too_large(structs: &[Struct], ctype: &CType) -> bool
    ensures { result ≡ exceeds (cell_count structs.now ctype.now) }
{
    MAX_OBJECT_CELLS < cell_count(structs, ctype)
}

/// Whether the struct of this number has more cells than an object may have.
fn is_too_large_struct(st: &State, number: usize) -> bool
    ensures { result ≡ spec.is_too_large st.now number }
{
    let ctype = plain(st.alloc(), Base::Struct { number });
    is_too_large(st.names().structs.as_slice(), &ctype)
}

/// A struct is complete after its members. It has at least one, and at most as many cells as an object may have.
pub fn ends_struct(
    st: &mut State,
    number: usize,
    is_empty: bool,
    place: usize,
) -> Result<(), NoMemory>
    ensures { OnOk result (st.new ≡ spec.ends_struct number is_empty place st.old) }
{
    let is_too_large = is_too_large_struct(st, number);
    st.complete_struct(number);
    st.note_if(is_empty || is_too_large, place, 10)
}

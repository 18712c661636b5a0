//! Declarations of typedef names (C11 6.7.8).

ghost use Rattle.std.specs.Prelude.{◌≡◌, IfOk, OnOk};
ghost use Rattle.c_rules.specs.Declarations as spec;

use crate::holds::may_be_same;
use c_kinds::CType;
use c_rules::Declares;
use c_scopes::State;
use c_tags::{copy_of, is_known_in_file};
use kv_base::{Bytes, Copied, NoMemory};

/// A copy of what a name is declared as.
pub(crate) fn copy_declares(st: &State, declares: &Declares) -> Result<Declares, NoMemory>
    ensures { IfOk result (λ made. made ≡ declares.now) }
{
    match declares {
        Declares::Typedef { ctype, is_unsaid } => {
            let ctype = copy_of(st, ctype)?;
            Ok(Declares::Typedef {
                ctype,
                is_unsaid: *is_unsaid,
            })
        }
        Declares::Object { number } => Ok(Declares::Object { number: *number }),
        Declares::Constant { value } => Ok(Declares::Constant { value: *value }),
        Declares::Function { number } => Ok(Declares::Function { number: *number }),
        Declares::Struct { number } => Ok(Declares::Struct { number: *number }),
        Declares::Enum => Ok(Declares::Enum),
    }
}

/// A name is declared as a typedef name in the block in which it is declared so already: the same type may be named again
/// (6.7p3).
fn typedef_again(
    st: &mut State,
    at: usize,
    ctype: &Option<CType>,
    declares: &Declares,
) -> Result<(), NoMemory>
    ensures { OnOk result (st.new ≡ spec.typedef_again at ctype.now declares.now st.old) }
{
    match declares {
        Declares::Typedef { ctype: known, .. } => {
            let is_same = may_be_same(ctype, known);
            st.note_if(!is_same, at, 4)
        }
        _ => st.note(at, 4),
    }
}

/// A typedef name.
pub fn declares_typedef(
    st: &mut State,
    name: &Bytes,
    at: usize,
    is_unsaid: bool,
    ctype: Option<CType>,
) -> Result<(), NoMemory>
    ensures { OnOk result (st.new ≡ spec.declares_typedef name.now at is_unsaid ctype st.old) }
{
    let is_known = is_known_in_file(st, name.as_slice());
    st.note_if(is_known, at, 23)?;
    match st.find_here(name.as_slice()) {
        Some(entry) => {
            let declares = copy_declares(st, &entry.declares)?;
            typedef_again(st, at, &ctype, &declares)
        }
        None => {
            let name = name.copy(st.alloc())?;
            st.declare(name, Declares::Typedef { ctype, is_unsaid })
        }
    }
}

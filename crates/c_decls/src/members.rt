//! Members of structs (C11 6.7.2.1).

ghost use Rattle.std.specs.Prelude.{◌≡◌, OnOk};
ghost use Rattle.c_rules.specs.Tags as spec;
ghost use Rattle.c_decls.specs.Parts.{built, member_site};

use crate::built::{Built, MemberSite};
use crate::holds::{holds_incomplete, holds_no_element};
use c_kinds::CType;
use c_scopes::State;
use kv_base::NoMemory;

/// The type of a member, if it may be one.
fn member_type(ctype: Option<CType>) -> Option<CType>
    ensures { result ≡ spec.member_type ctype }
{
    if holds_no_element(&ctype) {
        return None;
    }
    ctype
}

/// A declarator among the members of a struct adds a member, if it has a name.
pub fn names_member(st: &mut State, place: &MemberSite, b: Built) -> Result<(), NoMemory>
    ensures { OnOk result (st.new ≡ spec.names_member (member_site place.now) (built st.old b)) }
{
    let Built {
        ctype,
        name,
        at,
        pointers,
        ..
    } = b;
    let Some(name) = name else {
        return Ok(());
    };
    let is_incomplete = holds_incomplete(st.names().structs.as_slice(), at, &ctype);
    let is_known = st.has_member(place.number, name.as_slice());
    st.note_all(pointers)?;
    st.note_if(is_incomplete, at, 10)?;
    st.note_if(holds_no_element(&ctype), place.first, 24)?;
    st.note_if(is_known, at, 4)?;
    st.add_member(place.number, name, member_type(ctype))
}

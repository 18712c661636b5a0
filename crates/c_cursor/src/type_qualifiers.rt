//! Qualifiers (C11 6.7.3).

ghost use Rattle.std.specs.Prelude.{◌≡◌};
ghost use Rattle.c_tree.specs.Spells.{InParameter, InTypeName, may_qualify, may_all_qualify};
ghost use Rattle.c_tree.specs.SpellsText.{kinds_of};
ghost use Rattle.c_grammar.specs.ReadTypes as spec;
ghost use Rattle.c_cursor.specs.Reads.{Reads};

use crate::Cursor;
use crate::fault::{Fault, refuse};
use crate::marks::{Mark, mark_at};
use c_tokens::Token;
use c_tree::Qualifier;
use kv_base::Sequence;
use std::alloc::Global;

/// Qualifiers, as many as there are.
#[tactic(auto, using(crate::proofs::Skipped::qualifiers_none, crate::proofs::Skipped::qualifiers_next, crate::proofs::Skipped::qualifiers_last))]
pub fn qualifiers(
    alloc: Global,
    tokens: &[Token],
    limit: usize,
    place: &mut Cursor,
) -> Result<Sequence<Qualifier>, Fault>
    ensures { Reads (spec.qualifiers (kinds_of tokens.now) limit place.old) result place.new }
{
    let mut found = Sequence::new(alloc);
    for _turn in 0..limit {
        match mark_at(tokens, place) {
            Mark::Qualifies(qualifier) => {
                found.push(qualifier)?;
                place.skip();
            }
            _ => return Ok(found),
        }
    }
    Err(refuse(place))
}

/// Whether a qualifier may follow a `*` of a type name.
fn qualifies_type(qualifier: Qualifier) -> bool
    ensures { result ≡ may_qualify InTypeName qualifier }
{
    matches!(qualifier, Qualifier::Const)
}

/// Whether a qualifier may follow a `*` of a parameter that has no name.
fn qualifies_parameter(qualifier: Qualifier) -> bool
    ensures { result ≡ may_qualify InParameter qualifier }
{
    matches!(qualifier, Qualifier::Const | Qualifier::Restrict)
}

/// Whether these qualifiers may follow a `*` of a type name.
pub fn may_qualify_type(list: &[Qualifier]) -> bool
    ensures { result ≡ may_all_qualify InTypeName list.now }
{
    list.iter().all(|qualifier| qualifies_type(*qualifier))
}

/// Whether these qualifiers may follow a `*` of a parameter that has no name.
pub fn may_qualify_parameter(list: &[Qualifier]) -> bool
    ensures { result ≡ may_all_qualify InParameter list.now }
{
    list.iter().all(|qualifier| qualifies_parameter(*qualifier))
}

//! Which types are equal (C11 6.2.7).

ghost use Rattle.std.specs.Prelude.{◌≡◌};
ghost use Rattle.c_kinds.specs.Types as spec;

use c_kinds::{Base, CType, Derivation, Signature};
use kv_num::IntType;

/// Whether two integer types are the same.
#[tactic(auto, using(crate::proofs::SameBases::same_integer_is))]
pub fn same_integer(left: IntType, right: IntType) -> bool
    ensures { result ≡ spec.same_integer left right }
{
    left == right
}

/// Whether two bases are the same.
#[tactic(auto, using(crate::proofs::SameBases::same_base_is))]
fn same_base(left: Base, right: Base) -> bool
    ensures { result ≡ spec.same_base left right }
{
    left == right
}

/// Whether two derivations are the same, strictly with the pointers' qualifiers.
fn same_derivation(strictly: bool, left: Derivation, right: Derivation) -> bool
    ensures { result ≡ spec.same_derivation strictly left right }
{
    match (left, right) {
        (Derivation::Pointer { is_const: first }, Derivation::Pointer { is_const: second }) => {
            !strictly || first == second
        }
        (Derivation::Array { length: first }, Derivation::Array { length: second }) => {
            first == second
        }
        _ => false,
    }
}

/// Whether two lists of derivations are the same, strictly with the pointers' qualifiers.
#[tactic(auto, using(crate::proofs::Lists::same_derivations_differ))]
fn same_derivations(strictly: bool, left: &[Derivation], right: &[Derivation]) -> bool
    ensures { result ≡ spec.same_derivations strictly left.now right.now }
{
    if left.len() != right.len() {
        return false;
    }
    for (i, derivation) in left.iter().enumerate() {
        if !same_derivation(strictly, *derivation, right[i]) {
            return false;
        }
    }
    true
}

/// Whether two types are the same, with their qualifiers (6.2.7p1).
pub fn same(left: &CType, right: &CType) -> bool
    ensures { result ≡ spec.same left.now right.now }
{
    same_derivations(true, left.derived.as_slice(), right.derived.as_slice())
        && (same_base(left.base, right.base) && left.is_const == right.is_const)
}

/// Whether two types are the same but for qualifiers at all levels.
pub fn alike(left: &CType, right: &CType) -> bool
    ensures { result ≡ spec.alike left.now right.now }
{
    same_derivations(false, left.derived.as_slice(), right.derived.as_slice())
        && same_base(left.base, right.base)
}

/// Whether two lists of types are the same.
#[tactic(auto, using(crate::proofs::Lists::same_all_differ))]
fn same_all(left: &[CType], right: &[CType]) -> bool
    ensures { result ≡ spec.same_all left.now right.now }
{
    if left.len() != right.len() {
        return false;
    }
    for (i, ctype) in left.iter().enumerate() {
        if !same(ctype, &right[i]) {
            return false;
        }
    }
    true
}

/// Whether two types of functions are the same (6.7.6.3p15).
pub fn same_signature(left: &Signature, right: &Signature) -> bool
    ensures { result ≡ spec.same_signature left.now right.now }
{
    same(&left.result, &right.result)
        && (same_all(left.parameters.as_slice(), right.parameters.as_slice())
            && left.is_variadic == right.is_variadic)
}

/// The number of a signature among these: that of an equal one, or else the next.
pub fn signature_number(signatures: &[Signature], signature: &Signature) -> usize
    ensures { result ≡ spec.signature_number signatures.now signature.now }
{
    for (i, known) in signatures.iter().enumerate() {
        if same_signature(known, signature) {
            return i;
        }
    }
    signatures.len()
}

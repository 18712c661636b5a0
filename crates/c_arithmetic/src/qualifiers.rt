//! Qualifiers of types (C11 6.7.3).

ghost use Rattle.std.specs.Prelude.{◌≡◌, ◌&&◌};
ghost use Rattle.c_kinds.specs.Types as spec;
ghost use Rattle.c_arithmetic.specs.Arrays.{leading_arrays};

use c_kinds::{CType, Derivation, Derivations};

/// How many arrays a type consists of before the first pointer or the base: it is an array of that many dimensions.
fn leading_arrays(derived: &[Derivation]) -> usize
    ensures { result ≡ leading_arrays derived.now }
{
    let mut count = 0;
    for derivation in derived {
        match derivation {
            Derivation::Pointer { .. } => return count,
            Derivation::Array { .. } => count += 1,
        }
    }
    count
}

/// Whether only arrays lead to the base.
#[tactic(auto, using(crate::proofs::Lists::ends_in_base_is))]
pub(crate) fn ends_in_base(derived: &[Derivation]) -> bool
    ensures { result ≡ spec.ends_in_base derived.now }
{
    leading_arrays(derived) == derived.len()
}

/// Whether an object of a type with these derivations is `const`, where the base is or isn't (6.7.3p9).
fn const_by(derived: &[Derivation], is_const: bool) -> bool
    ensures { result ≡ spec.const_by derived.now is_const }
{
    for derivation in derived {
        match derivation {
            Derivation::Pointer { is_const } => return *is_const,
            Derivation::Array { .. } => {}
        }
    }
    is_const
}

/// Whether an object of the type is `const`.
pub fn const_of(ctype: &CType) -> bool
    ensures { result ≡ spec.const_of ctype.now }
{
    const_by(ctype.derived.as_slice(), ctype.is_const)
}

/// The derivations with the first pointer `const` or not. It takes no memory.
#[tactic(auto, using(crate::proofs::Lists::marked_is, crate::proofs::Lists::marked_none))]
fn marked(mut derived: Derivations, is_const: bool) -> Derivations
    ensures { result ≡ spec.marked derived is_const }
{
    let at = leading_arrays(derived.as_slice());
    if at < derived.len() {
        derived.set(at, Derivation::Pointer { is_const });
    }
    derived
}

/// The type, `const` or not; of an array, its elements. It takes no memory.
pub fn with_const(is_const: bool, ctype: CType) -> CType
    ensures { result ≡ spec.with_const is_const ctype }
{
    let ends_in_base = ends_in_base(ctype.derived.as_slice());
    CType {
        derived: marked(ctype.derived, is_const),
        base: ctype.base,
        is_const: if ends_in_base {
            is_const
        } else {
            ctype.is_const
        },
    }
}

/// The type, also `const` where that is given, as a member of a `const` struct is (6.5.2.3p3). It takes no memory.
pub fn also_const(is_const: bool, ctype: CType) -> CType
    ensures { result ≡ spec.also_const is_const ctype }
{
    if is_const {
        with_const(true, ctype)
    } else {
        ctype
    }
}

/// The type of a value of the type, which has no qualifiers of its own (6.3.2.1p2). It takes no memory.
pub fn unqualified(ctype: CType) -> CType
    ensures { result ≡ spec.unqualified ctype }
{
    with_const(false, ctype)
}

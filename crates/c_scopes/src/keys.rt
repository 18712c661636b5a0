//! The keys of signatures: lists of numbers by which they are found.

ghost use Rattle.std.specs.Prelude.{◌≡◌, ◌++◌, map, IfOk, OnOk};
ghost use Rattle.c_kinds.specs.Types as types;
ghost use Rattle.c_scopes.specs.Keys as spec;

use c_kinds::{Base, CType, Derivation, Signature};
use kv_base::{NoMemory, Sequence};
use kv_num::IntType;
use std::alloc::Global;

/// The number of a truth.
fn flag(holds: bool) -> u64
    ensures { result ≡ spec.flag holds }
{
    if holds { 1 } else { 0 }
}

/// The number of an integer type.
fn index_of(kind: IntType) -> u64
    ensures { result ≡ types.index_of kind }
{
    match kind {
        IntType::Bool => 0,
        IntType::Char => 1,
        IntType::SChar => 2,
        IntType::UChar => 3,
        IntType::Short => 4,
        IntType::UShort => 5,
        IntType::Int => 6,
        IntType::UInt => 7,
        IntType::Long32 => 8,
        IntType::ULong32 => 9,
        IntType::Long => 10,
        IntType::ULong => 11,
        IntType::LongLong => 12,
        IntType::ULongLong => 13,
    }
}

/// The number of a derivation.
fn derivation_key(derivation: Derivation) -> u64
    ensures { result ≡ spec.derivation_key derivation }
{
    match derivation {
        Derivation::Pointer { is_const } => flag(is_const),
        Derivation::Array { length } => length,
    }
}

/// Adds the numbers of derivations.
fn add_derivations(key: &mut Sequence<u64>, derivations: &[Derivation]) -> Result<(), NoMemory>
    ensures { OnOk result (key.new ≡ key.old ++ map spec.derivation_key derivations.now) }
{
    for derivation in derivations {
        key.push(derivation_key(*derivation))?;
    }
    Ok(())
}

/// Adds the numbers of a base.
fn add_base(key: &mut Sequence<u64>, base: Base) -> Result<(), NoMemory>
    ensures { OnOk result (key.new ≡ key.old ++ spec.base_key base) }
{
    match base {
        Base::Void => key.push(2),
        Base::Integer { kind } => key.extend_from_slice(&[3, index_of(kind)]),
        Base::Struct { number } => key.extend_from_slice(&[4, number as u64]),
        Base::Function { number } => key.extend_from_slice(&[5, number as u64]),
    }
}

/// Adds the numbers of a type.
fn add_type(key: &mut Sequence<u64>, ctype: &CType) -> Result<(), NoMemory>
    ensures { OnOk result (key.new ≡ key.old ++ spec.type_key ctype.now) }
{
    add_derivations(key, ctype.derived.as_slice())?;
    add_base(key, ctype.base)?;
    key.push(flag(ctype.is_const))
}

/// Adds the numbers of types.
fn add_types(key: &mut Sequence<u64>, ctypes: &[CType]) -> Result<(), NoMemory>
    ensures { OnOk result (key.new ≡ key.old ++ spec.types_key ctypes.now) }
{
    for ctype in ctypes {
        add_type(key, ctype)?;
    }
    Ok(())
}

/// The key of a signature.
pub(crate) fn signature_key(alloc: Global, signature: &Signature) -> Result<Sequence<u64>, NoMemory>
    ensures { IfOk result (λ key. key ≡ spec.signature_key signature.now) }
{
    let mut key = Sequence::new(alloc);
    add_type(&mut key, &signature.result)?;
    add_types(&mut key, signature.parameters.as_slice())?;
    key.push(flag(signature.is_variadic))?;
    Ok(key)
}

//! Copies of types.

use crate::{CType, Derivation, Typed};
use kv_base::{Copied, NoMemory};
use std::alloc::Global;

impl Copied for Derivation {
    fn copy(&self, _alloc: Global) -> Result<Derivation, NoMemory> {
        Ok(*self)
    }
}

impl Copied for CType {
    fn copy(&self, alloc: Global) -> Result<CType, NoMemory> {
        Ok(CType {
            derived: self.derived.copy(alloc)?,
            base: self.base,
            is_const: self.is_const,
        })
    }
}

impl Copied for Typed {
    fn copy(&self, alloc: Global) -> Result<Typed, NoMemory> {
        Ok(Typed {
            ctype: self.ctype.copy(alloc)?,
            is_place: self.is_place,
            is_null: self.is_null,
            fixed: self.fixed,
            address: self.address,
            named_at: self.named_at,
            ends_at: self.ends_at,
        })
    }
}

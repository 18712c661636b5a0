//! What a name means where it is declared.

use kv_base::Bytes;

/// A declared ordinary identifier (C11 6.2.3).
#[derive(Debug, Drop)]
pub struct Entry {
    pub name: Bytes,
    /// Whether it is a typedef name (6.7.8).
    pub is_type: bool,
}

//! What a reader gives besides trees.

use crate::BlockScope;
use c_tree::{Declarator, Specifier};
use kv_base::Bytes;
use sqlite_items::Items;

/// Specifiers (C11 6.7).
#[derive(Drop)]
pub struct Specified {
    pub list: Items<Specifier>,
    /// Whether `typedef` is among them.
    pub defines: bool,
}

/// A declarator (6.7.6).
#[derive(Drop)]
pub struct Titled {
    /// The name that it declares.
    pub name: Bytes,
    /// What the parameters nearest to the name declare.
    pub parameters: Option<BlockScope>,
    pub inner: Declarator,
}

/// A declarator, or what stands for one in a parameter.
#[derive(Drop)]
pub enum Perhaps {
    With { titled: Titled },
    Without { inner: Declarator },
}

//! What the operators are told beside their operands.

use c_rules::Names;
use c_tokens::DataModel;
use std::alloc::Global;

/// What the names of a text stand for, and the data model.
pub struct Given<'a> {
    pub alloc: Global,
    pub names: &'a Names,
    pub model: DataModel,
}

//! Copies of declarations, statements and whole trees, equal to what is copied. They stand apart from the copies of
//! expressions so that each crate is proved in a few minutes.
#![tactic(auto)]

mod declaration;
mod statement;
mod tree;

pub use declaration::{copy_declaration, copy_declared, copy_initialiser};
pub use statement::{
    copy_block_item, copy_block_items, copy_branch, copy_for_start, copy_statement,
};
pub use tree::{copy_external, copy_tree};

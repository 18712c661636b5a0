//! Copies of expressions and of the types that stand in them, equal to what is copied.
#![tactic(auto)]

mod expression;

pub use expression::{
    copy_declarator, copy_enum_constant, copy_expression, copy_member, copy_member_line,
    copy_parameter, copy_specifier, copy_specifiers, copy_type_name,
};

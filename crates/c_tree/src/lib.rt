//! The trees of C texts, and the tokens that spell them.
#![tactic(auto)]

mod declaration;
mod expression;
mod scope;
mod statement;

pub use declaration::{
    Declaration, Declared, DeclaredNames, External, Externals, Initialiser, TokenLines, Tree,
};
pub use expression::{
    AssignOperator, BaseWord, BinaryOperator, Declarator, EnumConstant, Expression, FunctionWord,
    Member, MemberLine, Parameter, Qualifier, Specifier, Step, StorageWord, TypeName,
    UnaryOperator,
};
pub use scope::Entry;
pub use statement::{BlockItem, Branch, ForStart, Statement};

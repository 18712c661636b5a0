//! Expressions, and the types that may stand in them: specifiers, declarators and type names.
//!
//! `at` is the number of the node's own token, counted from 0: its operator, its first word or its opening bracket.

use kv_base::{Bytes, Sequence};
use kv_num::IntType;
use sqlite_items::{Boxed, Items};

/// `++` or `--` (C11 6.5.2.4, 6.5.3.1).
#[derive(Clone, Copy, Debug, Drop, PartialEq, Eq)]
pub enum Step {
    Increment,
    Decrement,
}

/// An operator before a cast expression (6.5.3.2, 6.5.3.3).
#[derive(Clone, Copy, Debug, Drop, PartialEq, Eq)]
pub enum UnaryOperator {
    /// `&`
    Address,
    /// `*`
    Indirection,
    /// `+`
    Plus,
    /// `-`
    Minus,
    /// `~`
    Complement,
    /// `!`
    Not,
}

/// An operator between two operands (6.5.5 to 6.5.14).
#[derive(Clone, Copy, Debug, Drop, PartialEq, Eq)]
pub enum BinaryOperator {
    LogicalOr,
    LogicalAnd,
    BitOr,
    BitXor,
    BitAnd,
    Equal,
    NotEqual,
    Less,
    Greater,
    LessEqual,
    GreaterEqual,
    ShiftLeft,
    ShiftRight,
    Add,
    Subtract,
    Multiply,
    Divide,
    Remainder,
}

/// `=`, or the operator of a compound assignment (6.5.16).
#[derive(Clone, Copy, Debug, Drop, PartialEq, Eq)]
pub enum AssignOperator {
    Plain,
    Multiply,
    Divide,
    Remainder,
    Add,
    Subtract,
    ShiftLeft,
    ShiftRight,
    BitAnd,
    BitXor,
    BitOr,
}

/// A storage-class specifier (6.7.1).
#[derive(Clone, Copy, Debug, Drop, PartialEq, Eq)]
pub enum StorageWord {
    Typedef,
    Extern,
    Static,
    Auto,
    Register,
}

/// A function specifier (6.7.4).
#[derive(Clone, Copy, Debug, Drop, PartialEq, Eq)]
pub enum FunctionWord {
    Inline,
    Noreturn,
}

/// A type qualifier (6.7.3).
#[derive(Clone, Copy, Debug, Drop, PartialEq, Eq)]
pub enum Qualifier {
    Const,
    Volatile,
    Restrict,
}

/// A keyword that is a type specifier by itself (6.7.2).
#[derive(Clone, Copy, Debug, Drop, PartialEq, Eq)]
pub enum BaseWord {
    Void,
    Char,
    Short,
    Int,
    Long,
    Signed,
    Unsigned,
    Bool,
}

/// An expression (6.5). Round brackets make no node.
#[cycle(expression)]
#[derive(Debug, Drop)]
pub enum Expression {
    /// A name of an object, a function or an enumeration constant (6.5.1).
    Name {
        name: Bytes,
        at: usize,
    },
    /// An integer or character constant: its type, and its value in the type's range (6.4.4).
    Constant {
        kind: IntType,
        value: i128,
        at: usize,
    },
    /// A string literal (6.4.5).
    Text {
        at: usize,
    },
    /// `array[index]`, at the `[` (6.5.2.1).
    Subscript {
        array: Boxed<Expression>,
        index: Boxed<Expression>,
        at: usize,
    },
    /// `function(arguments)`, at the `(` (6.5.2.2).
    Call {
        function: Boxed<Expression>,
        arguments: Items<Expression>,
        at: usize,
    },
    /// `object.name`, at the `.`; the name is the next token (6.5.2.3).
    Member {
        object: Boxed<Expression>,
        name: Bytes,
        at: usize,
    },
    /// `pointer->name`, at the `->`; the name is the next token (6.5.2.3).
    PointedMember {
        pointer: Boxed<Expression>,
        name: Bytes,
        at: usize,
    },
    /// `operand++` or `operand--` (6.5.2.4).
    Postfix {
        step: Step,
        operand: Boxed<Expression>,
        at: usize,
    },
    /// `++operand` or `--operand` (6.5.3.1).
    Prefix {
        step: Step,
        operand: Boxed<Expression>,
        at: usize,
    },
    /// An operator before its operand (6.5.3.2, 6.5.3.3).
    Unary {
        operator: UnaryOperator,
        operand: Boxed<Expression>,
        at: usize,
    },
    /// `sizeof operand` (6.5.3.4).
    SizeofExpression {
        operand: Boxed<Expression>,
        at: usize,
    },
    /// `sizeof(type_name)` (6.5.3.4).
    SizeofType {
        type_name: Boxed<TypeName>,
        at: usize,
    },
    /// `(type_name)operand`, at the `(` (6.5.4).
    Cast {
        type_name: Boxed<TypeName>,
        operand: Boxed<Expression>,
        at: usize,
    },
    /// An operator between its operands (6.5.5 to 6.5.14).
    Binary {
        operator: BinaryOperator,
        left: Boxed<Expression>,
        right: Boxed<Expression>,
        at: usize,
    },
    /// `test ? then : otherwise`, at the `?` (6.5.15).
    Conditional {
        test: Boxed<Expression>,
        then: Boxed<Expression>,
        otherwise: Boxed<Expression>,
        at: usize,
    },
    /// An assignment, at its operator (6.5.16).
    Assign {
        operator: AssignOperator,
        target: Boxed<Expression>,
        value: Boxed<Expression>,
        at: usize,
    },
    /// Two or more expressions with a comma between each two, at the first comma (6.5.17).
    Comma {
        parts: Items<Expression>,
        at: usize,
    },
}

/// A declaration specifier (6.7).
#[cycle(expression)]
#[derive(Debug, Drop)]
pub enum Specifier {
    /// A storage class (6.7.1).
    Storage {
        word: StorageWord,
        at: usize,
    },
    /// `inline` or `_Noreturn` (6.7.4).
    Function {
        word: FunctionWord,
        at: usize,
    },
    /// A qualifier (6.7.3).
    Qualified {
        qualifier: Qualifier,
        at: usize,
    },
    /// A keyword that is a type specifier (6.7.2).
    Base {
        word: BaseWord,
        at: usize,
    },
    /// A name that a header gives to an integer type, as `size_t`.
    TypeWord {
        kind: IntType,
        at: usize,
    },
    /// `struct tag { .. }` (6.7.2.1). A tag is the next token.
    Struct {
        tag: Option<Bytes>,
        lines: Items<MemberLine>,
        at: usize,
    },
    /// `struct tag`. The tag is the next token.
    StructTag {
        tag: Bytes,
        at: usize,
    },
    /// `enum tag { .. }` (6.7.2.2). A tag is the next token.
    Enum {
        tag: Option<Bytes>,
        constants: Items<EnumConstant>,
        at: usize,
    },
    /// `enum tag`. The tag is the next token.
    EnumTag {
        tag: Bytes,
        at: usize,
    },
    /// A typedef name (6.7.8).
    TypedefName {
        name: Bytes,
        at: usize,
    },
}

/// A declaration in a struct (6.7.2.1).
#[cycle(expression)]
#[derive(Debug, Drop)]
pub struct MemberLine {
    pub specifiers: Items<Specifier>,
    /// One or more.
    pub members: Items<Member>,
}

/// A member of a struct (6.7.2.1).
#[cycle(expression)]
#[derive(Debug, Drop)]
pub enum Member {
    Plain {
        declarator: Declarator,
    },
    /// A bit-field, at its `:`.
    BitField {
        declarator: Declarator,
        width: Expression,
        at: usize,
    },
    /// A bit-field without a name, at its `:`.
    UnnamedBitField {
        width: Expression,
        at: usize,
    },
}

/// An enumeration constant, at its name (6.7.2.2).
#[cycle(expression)]
#[derive(Debug, Drop)]
pub enum EnumConstant {
    Next {
        name: Bytes,
        at: usize,
    },
    /// With its value.
    Valued {
        name: Bytes,
        value: Expression,
        at: usize,
    },
}

/// A declarator, or what stands for one in a type name or a parameter (6.7.6, 6.7.7). Round brackets make no node.
///
/// `*a[2]` is `Pointer` over `Array` over `Name`: the type is made from the outside in.
#[cycle(expression)]
#[derive(Debug, Drop)]
pub enum Declarator {
    /// The declared name.
    Name {
        name: Bytes,
        at: usize,
    },
    /// No name stands here. `at` is the next token's number.
    Unnamed {
        at: usize,
    },
    /// `* qualifiers inner`, at the `*`; the qualifiers are the next tokens (6.7.6.1).
    Pointer {
        qualifiers: Sequence<Qualifier>,
        inner: Boxed<Declarator>,
        at: usize,
    },
    /// `inner[size]`, at the `[` (6.7.6.2).
    Array {
        inner: Boxed<Declarator>,
        size: Boxed<Expression>,
        at: usize,
    },
    /// `inner[]`, at the `[` (6.7.6.2).
    OpenArray {
        inner: Boxed<Declarator>,
        at: usize,
    },
    /// `inner(parameters)`, at the `(`; `variadic` is the number of the `...` that ends the parameters (6.7.6.3).
    Function {
        inner: Boxed<Declarator>,
        parameters: Items<Parameter>,
        variadic: Option<usize>,
        at: usize,
    },
}

/// A parameter of a function (6.7.6.3).
#[cycle(expression)]
#[derive(Debug, Drop)]
pub struct Parameter {
    pub specifiers: Items<Specifier>,
    pub declarator: Declarator,
}

/// A type name (6.7.7).
#[cycle(expression)]
#[derive(Debug, Drop)]
pub struct TypeName {
    pub specifiers: Items<Specifier>,
    pub declarator: Declarator,
}

//! What declarators and parameters give beside the state.

use c_kinds::CType;
use c_rules::Pairs;
use c_scopes::Block;
use kv_base::{Bytes, Sequence};

/// Whether the first size of an array may be left out (C11 6.7.6.2p4).
#[derive(Clone, Copy, Debug, Drop)]
pub enum FirstSize {
    /// Never.
    Needed,
    /// In a parameter (6.7.6.3p7).
    OfParameter,
    /// Where so many parts in braces give it (6.7.9p22).
    OfBraces { parts: usize },
}

/// Where a declarator stands: after the specifiers that begin with this token, in a declaration or in a type name.
#[derive(Clone, Copy, Debug, Drop)]
pub struct Site {
    pub first_size: FirstSize,
    pub first: usize,
    pub is_type_name: bool,
}

/// What a declarator gives.
#[derive(Drop)]
pub struct Built {
    /// The type, unless a rule is broken.
    pub ctype: Option<CType>,
    pub name: Option<Bytes>,
    /// The name's token, or the next one where there is no name.
    pub at: usize,
    /// What its pointers break.
    pub pointers: Pairs,
    /// What its parameters break in a definition.
    pub in_definition: Pairs,
    /// Where the declarator itself makes its name a function: what its parameters declare.
    pub parameters: Option<Block>,
    /// And the `...` of these.
    pub dots: Option<usize>,
}

/// What a parameter gives.
#[derive(Drop)]
pub struct ParameterBuilt {
    /// The type in the signature, without qualifiers of its own (6.7.6.3p15).
    pub ctype: Option<CType>,
    pub pointers: Pairs,
    pub in_definition: Pairs,
    /// Its first specifier.
    pub first: usize,
    /// No name, and the type `void` without qualifiers.
    pub is_nothing: bool,
}

/// What the parameters of a function give.
#[derive(Drop)]
pub struct Listed {
    pub types: Sequence<Option<CType>>,
    pub pointers: Pairs,
    pub in_definition: Pairs,
}

/// How a name is declared: its storage, whether a value is given, and whether a body follows.
#[derive(Clone, Copy, Debug, Drop)]
pub struct How {
    pub is_typedef: bool,
    pub is_extern: bool,
    pub is_static: bool,
    pub is_initialised: bool,
    pub has_body: bool,
    /// The first specifier.
    pub first: usize,
}

/// Where members stand: the struct, the type that their specifiers name, and the first of these.
#[derive(Debug, Drop)]
pub struct MemberSite {
    pub number: usize,
    pub ctype: Option<CType>,
    pub first: usize,
}

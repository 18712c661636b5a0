//! What the names of a text stand for (C11 6.2.1 to 6.2.3).

use c_kinds::{CType, Signatures, Structs};
use kv_base::{Bytes, Sequence};
use kv_num::IntType;

/// A rule that is broken at a token.
#[derive(Clone, Copy, Debug, Drop, PartialEq, Eq)]
pub struct Pair {
    pub at: usize,
    pub rule: u8,
}

/// Rules that are broken, in no order.
pub type Pairs = Sequence<Pair>;

/// A function that needs no declaration.
#[derive(Clone, Copy, Debug, Drop, PartialEq, Eq)]
pub enum KnownFunction {
    /// `assert`
    Assert,
    /// `__VERIFIER_assume` and `__ESBMC_assume`
    Assume,
    /// `abort`
    Abort,
    /// `exit`
    Exit,
    /// `reach_error` and `__VERIFIER_error`
    Error,
    /// `__assert_fail`
    AssertFail,
    /// `__VERIFIER_nondet_T` and `nondet_T`, which take an input of the type that T names
    Nondet { kind: IntType },
}

/// What stands at a token.
#[derive(Debug, Drop)]
pub enum Meaning {
    /// A name of an object, where it is declared and where it is used.
    Object {
        number: usize,
    },
    /// A name of an enumeration constant, with its value unless its declaration breaks a rule.
    Constant {
        value: Option<i128>,
    },
    /// A name of a function.
    Function {
        number: usize,
    },
    /// A name of a known function that isn't declared.
    Known {
        function: KnownFunction,
    },
    /// The `(` of a cast, or the `sizeof` of a type name: the type that is named, unless a rule is broken, and the `*`
    /// that makes it a pointer to void, to an array or to a function, if it is one.
    Type {
        ctype: Option<CType>,
        star: Option<usize>,
    },
}

/// A declared object.
#[derive(Debug, Drop)]
pub struct Object {
    /// Its type, unless its declaration breaks a rule by which it has none.
    pub ctype: Option<CType>,
    /// Whether it lives as long as the program (6.2.4p3).
    pub is_static: bool,
    /// The function in whose definition it is declared.
    pub function: Option<usize>,
    /// Whether a declaration defines it (6.9.2).
    pub is_defined: bool,
    /// Whether a declaration gives its value.
    pub is_initialised: bool,
}

/// A declared function.
#[derive(Debug, Drop)]
pub struct Function {
    /// The number of its signature; of a known function that is only declared with `()` it has none.
    pub signature: Option<usize>,
    /// The known function that it declares.
    pub known: Option<KnownFunction>,
    /// Whether it has a body.
    pub is_defined: bool,
    /// The number of its first parameter among the objects, where it has a body. It is right where no rule is broken.
    pub first: usize,
}

/// The declared objects, by number.
pub type Objects = Sequence<Object>;

/// The declared functions, by number.
pub type Functions = Sequence<Function>;

/// What the names of a text stand for.
#[derive(Debug, Drop)]
pub struct Names {
    /// What stands at each token, by its number.
    pub meanings: Sequence<Option<Meaning>>,
    pub objects: Objects,
    pub functions: Functions,
    pub structs: Structs,
    pub signatures: Signatures,
    /// The rules that the declarations break.
    pub broken: Pairs,
}

/// What a name is declared as.
#[derive(Debug, Drop)]
pub enum Declares {
    /// A typedef name, with its type unless a rule is broken, and whether it is a function with `()` for its parameters.
    Typedef {
        ctype: Option<CType>,
        is_unsaid: bool,
    },
    Object {
        number: usize,
    },
    /// An enumeration constant, with its value unless a rule is broken.
    Constant {
        value: Option<i128>,
    },
    Function {
        number: usize,
    },
    /// A struct tag.
    Struct {
        number: usize,
    },
    /// An enum tag.
    Enum,
}

/// A declaration of a name in a scope (6.2.1).
#[derive(Debug, Drop)]
pub struct ScopeEntry {
    pub name: Bytes,
    pub declares: Declares,
    /// How many blocks stand around it.
    pub depth: usize,
}

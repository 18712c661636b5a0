/// The most bytes that a text may have.
pub const MAX_BYTES: usize = 1_048_576;

/// The most tokens that a text may have.
pub const MAX_TOKENS: usize = 200_000;

/// The most bytes that the names among the tokens may have in all, 64 MiB. A text spells no more than `MAX_BYTES` of
/// them itself; each use of a defined name gives a copy of the name that it stands for. More is out of memory.
pub const MAX_NAME_BYTES: usize = 67_108_864;

/// How deep the tokens of a text may be nested.
pub const MAX_NESTING: usize = 500;

/// How many expressions, specifiers, declarators, initialisers and statements of a tree may lie in one another.
pub const MAX_DEPTH: usize = 512;

//! Families of operators.

/// A family of binary operators: what the standard says of one holds for all of them.
#[derive(Clone, Copy, Debug, Drop, PartialEq, Eq)]
pub enum Family {
    /// `* / %`, and `& ^ |` (C11 6.5.5, 6.5.10 to 6.5.12).
    OnIntegers,
    /// `+ -` (6.5.6).
    Additive,
    /// `<< >>` (6.5.7).
    Shift,
    /// `< > <= >=` (6.5.8).
    Relational,
    /// `== !=` (6.5.9).
    Equality,
    /// `&& ||` (6.5.13, 6.5.14).
    Logical,
}

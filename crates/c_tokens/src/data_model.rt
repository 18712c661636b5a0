/// How wide `long` and pointers are. `int` has 32 bits and `long long` 64 in both.
#[derive(Clone, Copy, Debug, PartialEq, Eq)]
pub enum DataModel {
    /// `long` and pointers have 64 bits.
    Lp64,
    /// `long` and pointers have 32 bits.
    Ilp32,
}

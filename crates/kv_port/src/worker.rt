/// The workers of a verification: the base case, the forward condition, the inductive step and the
/// search for invariants, and the engine that starts them.
#[derive(Clone, Copy, Debug, PartialEq, Eq)]
pub enum Worker {
    Base,
    Forward,
    Step,
    Invariants,
    Engine,
}

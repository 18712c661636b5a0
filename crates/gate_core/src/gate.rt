use sat_clause::Lit;

/// What gives a variable its truth: nothing that is ever true, an input, or a gate with two operands.
#[derive(Clone, Copy, Debug, PartialEq, Eq, Hash, Drop)]
pub enum Gate {
    False,
    /// An input, named by its own place.
    Input(u64),
    And(Lit, Lit),
    Xor(Lit, Lit),
}

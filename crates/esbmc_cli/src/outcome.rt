/// What a call of the program has come to.
#[derive(Clone, Copy, Debug, PartialEq, Eq)]
pub struct Outcome {
    /// The exit status: `meant`, or 7 where the text of `meant` couldn't be written whole.
    pub status: u8,
    /// The status whose text was to be written.
    pub meant: u8,
}

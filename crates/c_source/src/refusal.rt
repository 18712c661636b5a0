/// Why a source is refused. Lines are counted from 1.
#[derive(Clone, Copy, Debug, PartialEq, Eq)]
pub enum Refusal {
    /// It has more than `MAX_BYTES` bytes.
    TooLong,
    /// No token begins there (C11 6.4).
    NoToken { line: u32 },
    /// A directive that the accepted C leaves out (6.10).
    Directive { line: u32 },
    /// An integer constant that no type represents (6.4.4.1).
    LongConstant { line: u32 },
    /// One token too many.
    TooManyTokens { line: u32 },
    /// A token that the accepted C leaves out, the first.
    LeftOut { word: &'static str, line: u32 },
    /// The text is nested too deep there.
    TooDeep { line: u32 },
    /// The tokens spell no translation unit (6.9).
    Syntax { line: u32 },
    /// C that this program doesn't verify yet.
    NotYet,
}

//! What a token is after an operand.

ghost use Rattle.std.specs.Prelude.{◌≡◌, ◌≤◌};
ghost use Rattle.c_tree.specs.Signs as sign;
ghost use Rattle.c_grammar.specs.Kinds as spec;
ghost use Rattle.c_grammar.specs.Suffixes.{reached};

use c_tokens::TokenKind;
use c_tree::{AssignOperator, BinaryOperator, Step};

/// An assignment expression and above (C11 6.5.16).
pub const ASSIGNMENT: u8 = 1;
/// A conditional expression and above (6.5.15).
pub const CONDITIONAL: u8 = 2;
/// A cast expression and above (6.5.4).
pub const CAST: u8 = 13;
/// A unary expression and above (6.5.3).
pub const UNARY: u8 = 14;
/// A postfix or primary expression (6.5.2, 6.5.1).
pub const POSTFIX: u8 = 15;

/// What a token is after an operand.
#[derive(Clone, Copy, Debug, PartialEq, Eq)]
pub enum Suffix {
    /// An operator between two operands.
    Infix(BinaryOperator),
    Assigns(AssignOperator),
    /// `?`
    Asks,
    /// `,`
    Commas,
    /// `[`
    Subscripts,
    /// `(`
    Calls,
    /// `.`
    Selects,
    /// `->`
    Points,
    /// `++` or `--`
    Steps(Step),
    NoSuffix,
}

/// What a token is after an operand.
pub fn suffix_of(kind: &TokenKind) -> Suffix
    ensures { result ≡ spec.suffix_of kind.now }
{
    match kind {
        TokenKind::OrOr => Suffix::Infix(BinaryOperator::LogicalOr),
        TokenKind::AndAnd => Suffix::Infix(BinaryOperator::LogicalAnd),
        TokenKind::Bar => Suffix::Infix(BinaryOperator::BitOr),
        TokenKind::Caret => Suffix::Infix(BinaryOperator::BitXor),
        TokenKind::Ampersand => Suffix::Infix(BinaryOperator::BitAnd),
        TokenKind::EqualEqual => Suffix::Infix(BinaryOperator::Equal),
        TokenKind::NotEqual => Suffix::Infix(BinaryOperator::NotEqual),
        TokenKind::Less => Suffix::Infix(BinaryOperator::Less),
        TokenKind::Greater => Suffix::Infix(BinaryOperator::Greater),
        TokenKind::LessEqual => Suffix::Infix(BinaryOperator::LessEqual),
        TokenKind::GreaterEqual => Suffix::Infix(BinaryOperator::GreaterEqual),
        TokenKind::ShiftLeft => Suffix::Infix(BinaryOperator::ShiftLeft),
        TokenKind::ShiftRight => Suffix::Infix(BinaryOperator::ShiftRight),
        TokenKind::Plus => Suffix::Infix(BinaryOperator::Add),
        TokenKind::Minus => Suffix::Infix(BinaryOperator::Subtract),
        TokenKind::Star => Suffix::Infix(BinaryOperator::Multiply),
        TokenKind::Slash => Suffix::Infix(BinaryOperator::Divide),
        TokenKind::Percent => Suffix::Infix(BinaryOperator::Remainder),
        TokenKind::Equal => Suffix::Assigns(AssignOperator::Plain),
        TokenKind::StarEqual => Suffix::Assigns(AssignOperator::Multiply),
        TokenKind::SlashEqual => Suffix::Assigns(AssignOperator::Divide),
        TokenKind::PercentEqual => Suffix::Assigns(AssignOperator::Remainder),
        TokenKind::PlusEqual => Suffix::Assigns(AssignOperator::Add),
        TokenKind::MinusEqual => Suffix::Assigns(AssignOperator::Subtract),
        TokenKind::ShiftLeftEqual => Suffix::Assigns(AssignOperator::ShiftLeft),
        TokenKind::ShiftRightEqual => Suffix::Assigns(AssignOperator::ShiftRight),
        TokenKind::AmpersandEqual => Suffix::Assigns(AssignOperator::BitAnd),
        TokenKind::CaretEqual => Suffix::Assigns(AssignOperator::BitXor),
        TokenKind::BarEqual => Suffix::Assigns(AssignOperator::BitOr),
        TokenKind::Question => Suffix::Asks,
        TokenKind::Comma => Suffix::Commas,
        TokenKind::LeftBracket => Suffix::Subscripts,
        TokenKind::LeftParenthesis => Suffix::Calls,
        TokenKind::Dot => Suffix::Selects,
        TokenKind::Arrow => Suffix::Points,
        TokenKind::Increment => Suffix::Steps(Step::Increment),
        TokenKind::Decrement => Suffix::Steps(Step::Decrement),
        _ => Suffix::NoSuffix,
    }
}

/// The level of a binary operator, from 3 for `||` to 12 for `*`.
pub fn level(operator: BinaryOperator) -> u8
    ensures value { result ≡ sign.level operator }
    ensures small { result ≤ 12 }
{
    match operator {
        BinaryOperator::LogicalOr => 3,
        BinaryOperator::LogicalAnd => 4,
        BinaryOperator::BitOr => 5,
        BinaryOperator::BitXor => 6,
        BinaryOperator::BitAnd => 7,
        BinaryOperator::Equal | BinaryOperator::NotEqual => 8,
        BinaryOperator::Less
        | BinaryOperator::Greater
        | BinaryOperator::LessEqual
        | BinaryOperator::GreaterEqual => 9,
        BinaryOperator::ShiftLeft | BinaryOperator::ShiftRight => 10,
        BinaryOperator::Add | BinaryOperator::Subtract => 11,
        BinaryOperator::Multiply | BinaryOperator::Divide | BinaryOperator::Remainder => 12,
    }
}

impl Suffix {
    /// The level that the operand before it needs; 16 where it is no operator.
    fn needs(self) -> u8
        ensures { result ≡ spec.needs self }
    {
        match self {
            Suffix::Infix(operator) => level(operator),
            Suffix::Assigns(_) => 14,
            Suffix::Asks => 3,
            Suffix::Commas => 1,
            Suffix::Subscripts
            | Suffix::Calls
            | Suffix::Selects
            | Suffix::Points
            | Suffix::Steps(_) => 15,
            Suffix::NoSuffix => 16,
        }
    }

    /// It goes on only where an expression of a level below this is read.
    fn below(self) -> u8
        ensures { result ≡ spec.below self }
    {
        match self {
            Suffix::Infix(operator) => level(operator) + 1,
            Suffix::Assigns(_) => 2,
            Suffix::Asks => 3,
            Suffix::Commas => 1,
            Suffix::Subscripts
            | Suffix::Calls
            | Suffix::Selects
            | Suffix::Points
            | Suffix::Steps(_) => 16,
            Suffix::NoSuffix => 0,
        }
    }

    /// The level of an operand with it.
    pub fn reaches(self) -> u8
        ensures { result ≡ reached self }
    {
        match self {
            Suffix::Infix(operator) => level(operator),
            Suffix::Assigns(_) => 1,
            Suffix::Asks => 2,
            Suffix::Commas => 0,
            _ => 15,
        }
    }

    /// Whether an operand of the first level goes on with it, where an expression of at least the second level is read.
    pub fn goes_on(self, reached: u8, least: u8) -> bool
        ensures { result ≡ spec.goes_on reached least self }
    {
        least < self.below() && self.needs() <= reached
    }
}

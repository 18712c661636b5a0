//! The tokens of a C text, after its directives and replacements (C11 6.4).

use kv_base::{Bytes, Copied, NoMemory, Sequence};
use kv_num::IntType;
use std::alloc::Global;

/// What a token is.
#[derive(Debug, Drop)]
pub enum TokenKind {
    // Punctuators (6.4.6).
    /// `[`
    LeftBracket,
    /// `]`
    RightBracket,
    /// `(`
    LeftParenthesis,
    /// `)`
    RightParenthesis,
    /// `{`
    LeftBrace,
    /// `}`
    RightBrace,
    /// `.`
    Dot,
    /// `->`
    Arrow,
    /// `++`
    Increment,
    /// `--`
    Decrement,
    /// `&`
    Ampersand,
    /// `*`
    Star,
    /// `+`
    Plus,
    /// `-`
    Minus,
    /// `~`
    Tilde,
    /// `!`
    Exclamation,
    /// `/`
    Slash,
    /// `%`
    Percent,
    /// `<<`
    ShiftLeft,
    /// `>>`
    ShiftRight,
    /// `<`
    Less,
    /// `>`
    Greater,
    /// `<=`
    LessEqual,
    /// `>=`
    GreaterEqual,
    /// `==`
    EqualEqual,
    /// `!=`
    NotEqual,
    /// `^`
    Caret,
    /// `|`
    Bar,
    /// `&&`
    AndAnd,
    /// `||`
    OrOr,
    /// `?`
    Question,
    /// `:`
    Colon,
    /// `;`
    Semicolon,
    /// `...`
    Ellipsis,
    /// `=`
    Equal,
    /// `*=`
    StarEqual,
    /// `/=`
    SlashEqual,
    /// `%=`
    PercentEqual,
    /// `+=`
    PlusEqual,
    /// `-=`
    MinusEqual,
    /// `<<=`
    ShiftLeftEqual,
    /// `>>=`
    ShiftRightEqual,
    /// `&=`
    AmpersandEqual,
    /// `^=`
    CaretEqual,
    /// `|=`
    BarEqual,
    /// `,`
    Comma,
    // Keywords (6.4.1), and two words of gcc.
    /// `auto`
    Auto,
    /// `break`
    Break,
    /// `case`
    Case,
    /// `char`
    Char,
    /// `const`
    Const,
    /// `continue`
    Continue,
    /// `default`
    Default,
    /// `do`
    Do,
    /// `else`
    Else,
    /// `enum`
    Enum,
    /// `extern`
    Extern,
    /// `for`
    For,
    /// `if`
    If,
    /// `inline`
    Inline,
    /// `int`
    Int,
    /// `long`
    Long,
    /// `register`
    Register,
    /// `restrict`
    Restrict,
    /// `return`
    Return,
    /// `short`
    Short,
    /// `signed`
    Signed,
    /// `sizeof`
    Sizeof,
    /// `static`
    Static,
    /// `struct`
    Struct,
    /// `switch`
    Switch,
    /// `typedef`
    Typedef,
    /// `unsigned`
    Unsigned,
    /// `void`
    Void,
    /// `volatile`
    Volatile,
    /// `while`
    While,
    /// `_Bool`
    Bool,
    /// `_Noreturn`
    Noreturn,
    /// `__attribute__`
    Attribute,
    /// `__extension__`
    Extension,
    // Words that the accepted C leaves out.
    /// `float`
    Float,
    /// `double`
    Double,
    /// `_Complex`
    Complex,
    /// `_Imaginary`
    Imaginary,
    /// `union`
    Union,
    /// `goto`
    Goto,
    /// `asm`
    Asm,
    /// `__asm__`
    UnderscoredAsm,
    /// `__asm`
    UnderscoreAsm,
    /// `_Generic`
    Generic,
    /// `_Atomic`
    Atomic,
    /// `_Thread_local`
    ThreadLocal,
    /// `_Alignas`
    Alignas,
    /// `_Alignof`
    Alignof,
    /// `_Static_assert`
    StaticAssert,
    /// An identifier that is no word above (6.4.2.1).
    Name { text: Bytes },
    /// A name that a header gives to an integer type, as `size_t`.
    TypeWord { kind: IntType },
    /// An integer or character constant, or such a name of a header: its type, and its value in the type's range.
    Constant { kind: IntType, value: i128 },
    /// A floating constant (6.4.4.2). The accepted C leaves it out.
    FloatingConstant,
    /// A string literal (6.4.5). Its content isn't kept.
    Text,
}

/// A token, and where it stands. What a name was replaced by stands in the name's place.
#[derive(Debug, Drop)]
pub struct Token {
    pub kind: TokenKind,
    /// The offset of its first byte.
    pub at: u32,
    /// The line of its first byte, counted from 1.
    pub line: u32,
}

/// The tokens of a text, in order.
pub type Tokens = Sequence<Token>;

macro_rules! copied {
    ($kind:expr, $alloc:expr; $($plain:ident)*) => {
        match $kind {
            $(TokenKind::$plain => Ok(TokenKind::$plain),)*
            TokenKind::Name { text } => Ok(TokenKind::Name { text: text.copy($alloc)? }),
            TokenKind::TypeWord { kind } => Ok(TokenKind::TypeWord { kind: *kind }),
            TokenKind::Constant { kind, value } => Ok(TokenKind::Constant { kind: *kind, value: *value }),
        }
    };
}

impl Copied for TokenKind {
    fn copy(&self, alloc: Global) -> Result<TokenKind, NoMemory> {
        copied!(self, alloc;

            LeftBracket RightBracket LeftParenthesis RightParenthesis LeftBrace RightBrace
            Dot Arrow Increment Decrement Ampersand Star
            Plus Minus Tilde Exclamation Slash Percent
            ShiftLeft ShiftRight Less Greater LessEqual GreaterEqual
            EqualEqual NotEqual Caret Bar AndAnd OrOr
            Question Colon Semicolon Ellipsis Equal StarEqual
            SlashEqual PercentEqual PlusEqual MinusEqual ShiftLeftEqual ShiftRightEqual
            AmpersandEqual CaretEqual BarEqual Comma Auto Break
            Case Char Const Continue Default Do
            Else Enum Extern For If Inline
            Int Long Register Restrict Return Short
            Signed Sizeof Static Struct Switch Typedef
            Unsigned Void Volatile While Bool Noreturn
            Attribute Extension Float Double Complex Imaginary
            Union Goto Asm UnderscoredAsm UnderscoreAsm Generic
            Atomic ThreadLocal Alignas Alignof StaticAssert FloatingConstant
            Text
        )
    }
}

impl Copied for Token {
    fn copy(&self, alloc: Global) -> Result<Token, NoMemory> {
        Ok(Token {
            kind: self.kind.copy(alloc)?,
            at: self.at,
            line: self.line,
        })
    }
}

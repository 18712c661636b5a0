ghost use Rattle.std.specs.Prelude.{◌≡◌, IfOk, map};
ghost use Rattle.c_tokens.specs.Words.{left_out_row, left_out_words, lookup, words, punctuators};
ghost use Rattle.c_scan.specs.Rows.{row_view, rows, words_of};

use c_tokens::{TokenKind, left_out_text};
use kv_base::{Copied, NoMemory};
use std::alloc::Global;

/// A text, and the token that it is.
#[derive(Drop)]
pub struct Row {
    pub text: &'static [u8],
    pub kind: TokenKind,
}

/// The token of the first row with this text.
pub fn find(alloc: Global, table: &[Row], text: &[u8]) -> Result<Option<TokenKind>, NoMemory>
    ensures { IfOk result (λ found. found ≡ lookup (rows table.now) text.now) }
{
    for row in table {
        if row.text == text {
            return Ok(Some(row.kind.copy(alloc)?));
        }
    }
    Ok(None)
}

/// Keywords (C11 6.4.1), and two words of gcc.
const KEYWORDS: [Row; 34] = [
    Row {
        text: b"auto",
        kind: TokenKind::Auto,
    },
    Row {
        text: b"break",
        kind: TokenKind::Break,
    },
    Row {
        text: b"case",
        kind: TokenKind::Case,
    },
    Row {
        text: b"char",
        kind: TokenKind::Char,
    },
    Row {
        text: b"const",
        kind: TokenKind::Const,
    },
    Row {
        text: b"continue",
        kind: TokenKind::Continue,
    },
    Row {
        text: b"default",
        kind: TokenKind::Default,
    },
    Row {
        text: b"do",
        kind: TokenKind::Do,
    },
    Row {
        text: b"else",
        kind: TokenKind::Else,
    },
    Row {
        text: b"enum",
        kind: TokenKind::Enum,
    },
    Row {
        text: b"extern",
        kind: TokenKind::Extern,
    },
    Row {
        text: b"for",
        kind: TokenKind::For,
    },
    Row {
        text: b"if",
        kind: TokenKind::If,
    },
    Row {
        text: b"inline",
        kind: TokenKind::Inline,
    },
    Row {
        text: b"int",
        kind: TokenKind::Int,
    },
    Row {
        text: b"long",
        kind: TokenKind::Long,
    },
    Row {
        text: b"register",
        kind: TokenKind::Register,
    },
    Row {
        text: b"restrict",
        kind: TokenKind::Restrict,
    },
    Row {
        text: b"return",
        kind: TokenKind::Return,
    },
    Row {
        text: b"short",
        kind: TokenKind::Short,
    },
    Row {
        text: b"signed",
        kind: TokenKind::Signed,
    },
    Row {
        text: b"sizeof",
        kind: TokenKind::Sizeof,
    },
    Row {
        text: b"static",
        kind: TokenKind::Static,
    },
    Row {
        text: b"struct",
        kind: TokenKind::Struct,
    },
    Row {
        text: b"switch",
        kind: TokenKind::Switch,
    },
    Row {
        text: b"typedef",
        kind: TokenKind::Typedef,
    },
    Row {
        text: b"unsigned",
        kind: TokenKind::Unsigned,
    },
    Row {
        text: b"void",
        kind: TokenKind::Void,
    },
    Row {
        text: b"volatile",
        kind: TokenKind::Volatile,
    },
    Row {
        text: b"while",
        kind: TokenKind::While,
    },
    Row {
        text: b"_Bool",
        kind: TokenKind::Bool,
    },
    Row {
        text: b"_Noreturn",
        kind: TokenKind::Noreturn,
    },
    Row {
        text: b"__attribute__",
        kind: TokenKind::Attribute,
    },
    Row {
        text: b"__extension__",
        kind: TokenKind::Extension,
    },
];

/// The row of a word that the accepted C leaves out.
fn left_out_row(kind: TokenKind) -> Row
    ensures { row_view result ≡ left_out_row kind }
{
    let text = match left_out_text(&kind) {
        Some(text) => text,
        None => "",
    };
    Row {
        text: text.as_bytes(),
        kind,
    }
}

/// The words that the accepted C leaves out.
fn left_out_rows() -> [Row; 15]
    ensures { rows result ≡ map left_out_row left_out_words }
{
    [
        left_out_row(TokenKind::Float),
        left_out_row(TokenKind::Double),
        left_out_row(TokenKind::Complex),
        left_out_row(TokenKind::Imaginary),
        left_out_row(TokenKind::Union),
        left_out_row(TokenKind::Goto),
        left_out_row(TokenKind::Asm),
        left_out_row(TokenKind::UnderscoredAsm),
        left_out_row(TokenKind::UnderscoreAsm),
        left_out_row(TokenKind::Generic),
        left_out_row(TokenKind::Atomic),
        left_out_row(TokenKind::ThreadLocal),
        left_out_row(TokenKind::Alignas),
        left_out_row(TokenKind::Alignof),
        left_out_row(TokenKind::StaticAssert),
    ]
}

/// The words of the accepted C, and those that it leaves out.
#[derive(Drop)]
pub struct Words {
    keywords: [Row; 34],
    left_out: [Row; 15],
}

impl Words {
    /// The words.
    fn new() -> Words
        ensures { words_of result ≡ words }
    {
        Words {
            keywords: KEYWORDS,
            left_out: left_out_rows(),
        }
    }

    /// The token of the word that a text is.
    pub fn find(&self, alloc: Global, text: &[u8]) -> Result<Option<TokenKind>, NoMemory>
        ensures { IfOk result (λ found. found ≡ lookup (words_of self.now) text.now) }
    {
        match find(alloc, &self.keywords, text)? {
            Some(kind) => Ok(Some(kind)),
            None => find(alloc, &self.left_out, text),
        }
    }
}

/// Punctuators (6.4.6).
const PUNCTUATORS: [Row; 46] = [
    Row {
        text: b"[",
        kind: TokenKind::LeftBracket,
    },
    Row {
        text: b"]",
        kind: TokenKind::RightBracket,
    },
    Row {
        text: b"(",
        kind: TokenKind::LeftParenthesis,
    },
    Row {
        text: b")",
        kind: TokenKind::RightParenthesis,
    },
    Row {
        text: b"{",
        kind: TokenKind::LeftBrace,
    },
    Row {
        text: b"}",
        kind: TokenKind::RightBrace,
    },
    Row {
        text: b".",
        kind: TokenKind::Dot,
    },
    Row {
        text: b"->",
        kind: TokenKind::Arrow,
    },
    Row {
        text: b"++",
        kind: TokenKind::Increment,
    },
    Row {
        text: b"--",
        kind: TokenKind::Decrement,
    },
    Row {
        text: b"&",
        kind: TokenKind::Ampersand,
    },
    Row {
        text: b"*",
        kind: TokenKind::Star,
    },
    Row {
        text: b"+",
        kind: TokenKind::Plus,
    },
    Row {
        text: b"-",
        kind: TokenKind::Minus,
    },
    Row {
        text: b"~",
        kind: TokenKind::Tilde,
    },
    Row {
        text: b"!",
        kind: TokenKind::Exclamation,
    },
    Row {
        text: b"/",
        kind: TokenKind::Slash,
    },
    Row {
        text: b"%",
        kind: TokenKind::Percent,
    },
    Row {
        text: b"<<",
        kind: TokenKind::ShiftLeft,
    },
    Row {
        text: b">>",
        kind: TokenKind::ShiftRight,
    },
    Row {
        text: b"<",
        kind: TokenKind::Less,
    },
    Row {
        text: b">",
        kind: TokenKind::Greater,
    },
    Row {
        text: b"<=",
        kind: TokenKind::LessEqual,
    },
    Row {
        text: b">=",
        kind: TokenKind::GreaterEqual,
    },
    Row {
        text: b"==",
        kind: TokenKind::EqualEqual,
    },
    Row {
        text: b"!=",
        kind: TokenKind::NotEqual,
    },
    Row {
        text: b"^",
        kind: TokenKind::Caret,
    },
    Row {
        text: b"|",
        kind: TokenKind::Bar,
    },
    Row {
        text: b"&&",
        kind: TokenKind::AndAnd,
    },
    Row {
        text: b"||",
        kind: TokenKind::OrOr,
    },
    Row {
        text: b"?",
        kind: TokenKind::Question,
    },
    Row {
        text: b":",
        kind: TokenKind::Colon,
    },
    Row {
        text: b";",
        kind: TokenKind::Semicolon,
    },
    Row {
        text: b"...",
        kind: TokenKind::Ellipsis,
    },
    Row {
        text: b"=",
        kind: TokenKind::Equal,
    },
    Row {
        text: b"*=",
        kind: TokenKind::StarEqual,
    },
    Row {
        text: b"/=",
        kind: TokenKind::SlashEqual,
    },
    Row {
        text: b"%=",
        kind: TokenKind::PercentEqual,
    },
    Row {
        text: b"+=",
        kind: TokenKind::PlusEqual,
    },
    Row {
        text: b"-=",
        kind: TokenKind::MinusEqual,
    },
    Row {
        text: b"<<=",
        kind: TokenKind::ShiftLeftEqual,
    },
    Row {
        text: b">>=",
        kind: TokenKind::ShiftRightEqual,
    },
    Row {
        text: b"&=",
        kind: TokenKind::AmpersandEqual,
    },
    Row {
        text: b"^=",
        kind: TokenKind::CaretEqual,
    },
    Row {
        text: b"|=",
        kind: TokenKind::BarEqual,
    },
    Row {
        text: b",",
        kind: TokenKind::Comma,
    },
];

/// The tables that a reading looks words and punctuators up in.
#[derive(Drop)]
pub struct Vocabulary {
    pub words: Words,
    pub punctuators: [Row; 46],
}

impl Vocabulary {
    /// The tables.
    pub fn new() -> Vocabulary
        ensures words { words_of result.words ≡ words }
        ensures punctuators { rows result.punctuators ≡ punctuators }
    {
        Vocabulary {
            words: Words::new(),
            punctuators: PUNCTUATORS,
        }
    }
}

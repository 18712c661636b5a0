ghost use Rattle.std.specs.Prelude.{◌≡◌, ◌+◌, ◌<◌, ◌≤◌, ◌==◌, ◌||◌, ◌∷◌, codes, length, slice_index, drop, Option, Some, IfOk, IfSome, OnOk, MatchResult, MatchOption};
ghost use Rattle.std.specs.List.{list_any};
ghost use Rattle.c_tokens.specs.Reading.{Goes, Read, beginning, directive_step, divided, ends_blank, form_step, is_lone_return, is_splice, is_too_large, kind_of_name, large_constant, moved, moves_lines, newlines, number_step, piece_step, reading, shape_step, splice_from, with_token};
ghost use Rattle.c_tokens.specs.Constants.{number_of};
ghost use Rattle.c_scan.specs.Numbers.{number_view};
ghost use Rattle.c_lexer.specs.Forms.{form_view};
ghost use Rattle.c_scan.specs.Fronts.{shape_of};
ghost use Rattle.c_macros.specs.Tables.{Tells, macros_view};
ghost use Rattle.c_lexer.specs.States.{fault_place, IsFault, IsReady, IsStop, IsVocabulary, state_view, step_at};

use crate::directives::{Form, form_of, line_of, open_comment};
use c_macros::Macros;
use c_scan::{
    Number, Piece, Run, Shape, Vocabulary, begins_digit, char_value, first_piece, number_of,
    run_size,
};
use c_tokens::{DataModel, MAX_BYTES, MAX_NAME_BYTES, MAX_TOKENS, Token, TokenKind, Tokens};
use kv_base::NoMemory;
use kv_num::IntType;
use std::alloc::Global;
use thiserror::Error;

/// Why a text has no tokens: the first fault from the left, at the offset of its first byte.
#[derive(Debug, Drop, Error)]
pub enum LexFault {
    /// No token begins here.
    #[error("no token at {at}")]
    NoToken { at: u32 },
    /// A directive that the accepted C leaves out.
    #[error("directive at {at}")]
    Directive { at: u32 },
    /// An integer constant that no type represents.
    #[error("constant too large at {at}")]
    LongConstant { at: u32 },
    /// One token more than `MAX_TOKENS`.
    #[error("too many tokens at {at}")]
    TooManyTokens { at: u32 },
    /// Want of memory, also where the names among the tokens have more than `MAX_NAME_BYTES`.
    #[error("out of memory")]
    NoMemory,
}

/// What was read so far.
#[derive(Drop)]
pub(crate) struct Lexer {
    model: DataModel,
    at: usize,
    line: usize,
    fresh: bool,
    macros: Macros,
    /// How many bytes further names may have.
    room: usize,
    tokens: Vec<Token>,
}

/// How many newlines a text has.
fn count_newlines(text: &[u8]) -> usize
    ensures value { result ≡ newlines text.now }
    ensures bound { result ≤ length text.now }
{
    text.iter().filter(|c| **c == b'\n').count()
}

/// Whether a text has a newline.
fn has_newline(text: &[u8]) -> bool
    ensures { result ≡ list_any (λ c. c == 10) text.now }
{
    text.iter().any(|c| *c == b'\n')
}

/// Whether the number is an integer constant that no type represents.
fn is_too_large(number: Number) -> bool
    ensures { result ≡ is_too_large (number_view number) }
{
    match number {
        Number::TooLarge => true,
        Number::Whole { .. } | Number::Floating | Number::NoConstant => false,
    }
}

/// The place of the constant of a `#define` that no type represents.
fn large_constant(model: DataModel, form: Form<'_>) -> Option<usize>
    ensures { result ≡ large_constant model (form_view form.entry) }
{
    match form {
        Form::Defines {
            name: _,
            text,
            place,
        } => {
            if begins_digit(text) && is_too_large(number_of(model, text)) {
                return Some(place);
            }
            None
        }
        Form::Nothing | Form::Includes { .. } | Form::Wrong => None,
    }
}

impl Lexer {
    /// Goes on after white space, comments or a directive.
    fn advance_over(&mut self, text: &[u8])
        requires ready { IsReady self.old.model self.old }
        requires room { self.old.at + length text.now ≤ MAX_BYTES }
        ensures told { state_view self.new ≡ moved (state_view self.old) text.now (macros_view self.old.macros) }
        ensures place { self.new.at ≡ self.old.at + length text.now }
        ensures ready { IsReady self.old.model self.new }
        ensures model { self.new.model ≡ self.old.model }
    {
        let lines = count_newlines(text);
        let fresh = has_newline(text);
        self.at += text.len();
        self.line += lines;
        self.fresh = self.fresh || fresh;
    }

    /// Goes on after a token.
    fn push_token(&mut self, text: &[u8], kind: TokenKind) -> Result<(), LexFault>
        requires ready { IsReady self.old.model self.old }
        requires room { self.old.at + length text.now ≤ MAX_BYTES }
        ensures told { MatchResult result
            (λ _. with_token (state_view self.old) text.now kind ≡ Goes (length text.now) (state_view self.new))
            (λ fault. IsStop fault (with_token (state_view self.old) text.now kind)) }
        ensures place { OnOk result (self.new.at ≡ self.old.at + length text.now) }
        ensures ready { OnOk result (IsReady self.old.model self.new) }
        ensures model { OnOk result (self.new.model ≡ self.old.model) }
    {
        let at = self.at as u32;
        let line = self.line as u32;
        if self.tokens.len() == MAX_TOKENS {
            return Err(LexFault::TooManyTokens { at });
        }
        let Ok(()) = self.tokens.push(Token { kind, at, line }) else {
            return Err(LexFault::NoMemory);
        };
        let lines = count_newlines(text);
        self.at += text.len();
        self.line += lines;
        self.fresh = false;
        Ok(())
    }

    /// Goes on after a number.
    fn take_number(&mut self, text: &[u8]) -> Result<(), LexFault>
        requires ready { IsReady self.old.model self.old }
        requires room { self.old.at + length text.now ≤ MAX_BYTES }
        ensures told { MatchResult result
            (λ _. number_step (state_view self.old) text.now (number_of self.old.model text.now) ≡ Goes (length text.now) (state_view self.new))
            (λ fault. IsStop fault (number_step (state_view self.old) text.now (number_of self.old.model text.now))) }
        ensures place { OnOk result (self.new.at ≡ self.old.at + length text.now) }
        ensures ready { OnOk result (IsReady self.old.model self.new) }
        ensures model { OnOk result (self.new.model ≡ self.old.model) }
    {
        let at = self.at as u32;
        match number_of(self.model, text) {
            Number::Whole { kind, value } => self.push_token(
                text,
                TokenKind::Constant {
                    kind,
                    value: i128::from(value),
                },
            ),
            Number::TooLarge => Err(LexFault::LongConstant { at }),
            Number::Floating => self.push_token(text, TokenKind::FloatingConstant),
            Number::NoConstant => Err(LexFault::NoToken { at }),
        }
    }

    /// Counts the bytes of a name.
    fn count_name(&mut self, kind: &TokenKind) -> Result<(), NoMemory>
        requires ready { IsReady self.old.model self.old }
        ensures state { state_view self.new ≡ state_view self.old }
        ensures ready { IsReady self.old.model self.new }
        ensures model { self.new.model ≡ self.old.model }
    {
        let TokenKind::Name { text } = kind else {
            return Ok(());
        };
        if text.len() > self.room {
            return Err(NoMemory);
        }
        self.room -= text.len();
        Ok(())
    }

    /// What a word or name is.
    fn word_kind(
        &mut self,
        alloc: Global,
        vocabulary: &Vocabulary,
        text: &[u8],
    ) -> Result<TokenKind, NoMemory>
        requires ready { IsReady self.old.model self.old }
        requires tables { IsVocabulary vocabulary.now }
        ensures kind { IfOk result (λ kind. kind ≡ kind_of_name self.old.model (macros_view self.old.macros) text.now) }
        ensures state { state_view self.new ≡ state_view self.old }
        ensures ready { IsReady self.old.model self.new }
        ensures model { self.new.model ≡ self.old.model }
    {
        let kind = self.macros.kind_of_name(alloc, &vocabulary.words, text)?;
        self.count_name(&kind)?;
        Ok(kind)
    }

    /// Goes on after a piece.
    #[tactic(auto, unfolding(c_tokens::specs::Reading::shape_step))]
    fn take_shape(
        &mut self,
        alloc: Global,
        vocabulary: &Vocabulary,
        text: &[u8],
        shape: Shape,
    ) -> Result<(), LexFault>
        requires ready { IsReady self.old.model self.old }
        requires tables { IsVocabulary vocabulary.now }
        requires room { self.old.at + length text.now ≤ MAX_BYTES }
        ensures told { MatchResult result
            (λ _. shape_step self.old.model (state_view self.old) text.now (shape_of shape) ≡ Goes (length text.now) (state_view self.new))
            (λ fault. IsStop fault (shape_step self.old.model (state_view self.old) text.now (shape_of shape))) }
        ensures place { OnOk result (self.new.at ≡ self.old.at + length text.now) }
        ensures ready { OnOk result (IsReady self.old.model self.new) }
        ensures model { OnOk result (self.new.model ≡ self.old.model) }
    {
        match shape {
            Shape::Space => {
                self.advance_over(text);
                Ok(())
            }
            Shape::Word => {
                let Ok(kind) = self.word_kind(alloc, vocabulary, text) else {
                    return Err(LexFault::NoMemory);
                };
                self.push_token(text, kind)
            }
            Shape::Number => self.take_number(text),
            Shape::Character { value } => self.push_token(
                text,
                TokenKind::Constant {
                    kind: IntType::Int,
                    value: char_value(value),
                },
            ),
            Shape::Quoted => self.push_token(text, TokenKind::Text),
            Shape::Mark { kind } => self.push_token(text, kind),
        }
    }

    /// Takes a piece, and answers its size.
    #[tactic(auto, unfolding(c_tokens::specs::Reading::piece_step))]
    fn take_piece(
        &mut self,
        alloc: Global,
        vocabulary: &Vocabulary,
        rest: &[u8],
    ) -> Result<usize, LexFault>
        requires ready { IsReady self.old.model self.old }
        requires tables { IsVocabulary vocabulary.now }
        requires room { self.old.at + length rest.now ≤ MAX_BYTES }
        ensures told { MatchResult result
            (λ size. piece_step self.old.model (state_view self.old) rest.now ≡ Goes size (state_view self.new))
            (λ fault. IsStop fault (piece_step self.old.model (state_view self.old) rest.now)) }
        ensures place { IfOk result (λ size. self.new.at ≡ self.old.at + size) }
        ensures size { IfOk result (λ size. (1 ≤ size) × (size ≤ length rest.now)) }
        ensures ready { OnOk result (IsReady self.old.model self.new) }
        ensures model { OnOk result (self.new.model ≡ self.old.model) }
    {
        let at = self.at as u32;
        let Ok(found) = first_piece(alloc, &vocabulary.punctuators, rest) else {
            return Err(LexFault::NoMemory);
        };
        let Some(Piece { size, shape }) = found else {
            return Err(LexFault::NoToken { at });
        };
        match self.take_shape(alloc, vocabulary, &rest[..size], shape) {
            Ok(()) => Ok(size),
            Err(fault) => Err(fault),
        }
    }

    /// Changes the macros as a directive says, if it may.
    #[tactic(auto, unfolding(c_tokens::specs::Reading::form_step))]
    fn apply_form(&mut self, alloc: Global, form: Form<'_>) -> Result<bool, NoMemory>
        requires ready { IsReady self.old.model self.old }
        ensures told { IfOk result (λ taken. Tells taken (form_step self.old.model (macros_view self.old.macros) (form_view form.entry)) (macros_view self.new.macros)) }
        ensures state { state_view self.new ≡ record (state_view self.old) { macros = macros_view self.new.macros } }
        ensures ready { OnOk result (IsReady self.old.model self.new) }
        ensures model { self.new.model ≡ self.old.model }
    {
        match form {
            Form::Nothing => Ok(true),
            Form::Includes { header } => self.macros.include(alloc, header),
            Form::Defines {
                name,
                text,
                place: _,
            } => self.macros.define(alloc, name, text),
            Form::Wrong => Ok(false),
        }
    }

    /// Takes a directive, whose line after its `#` begins at `rest`, and answers its size.
    #[tactic(auto, unfolding(c_tokens::specs::Reading::directive_step))]
    fn take_directive(&mut self, alloc: Global, hash: &[u8], rest: &[u8]) -> Result<usize, LexFault>
        requires ready { IsReady self.old.model self.old }
        requires room { self.old.at + length hash.now ≤ MAX_BYTES }
        requires hash { hash.now ≡ 35 ∷ rest.now }
        ensures told { MatchResult result
            (λ size. directive_step self.old.model (state_view self.old) rest.now ≡ Goes size (state_view self.new))
            (λ fault. IsStop fault (directive_step self.old.model (state_view self.old) rest.now)) }
        ensures place { IfOk result (λ size. self.new.at ≡ self.old.at + size) }
        ensures size { IfOk result (λ size. (1 ≤ size) × (size ≤ length hash.now)) }
        ensures ready { OnOk result (IsReady self.old.model self.new) }
        ensures model { OnOk result (self.new.model ≡ self.old.model) }
    {
        let at = self.at as u32;
        let Ok(line) = line_of(alloc, rest) else {
            return Err(LexFault::NoMemory);
        };
        let form = form_of(line.as_slice());
        let Ok(taken) = self.apply_form(alloc, form) else {
            return Err(LexFault::NoMemory);
        };
        if !taken {
            return Err(LexFault::Directive { at });
        }
        if let Some(place) = large_constant(self.model, form) {
            return Err(LexFault::LongConstant {
                at: (self.at + 1 + place) as u32,
            });
        }
        if let Some(place) = open_comment(rest) {
            return Err(LexFault::NoToken {
                at: (self.at + 1 + place) as u32,
            });
        }
        let size = line.len() + 1;
        self.advance_over(&hash[..size]);
        Ok(size)
    }

    /// Takes the next piece or directive, and answers its size.
    fn advance(
        &mut self,
        alloc: Global,
        vocabulary: &Vocabulary,
        bytes: &[u8],
    ) -> Result<usize, LexFault>
        requires ready { IsReady self.old.model self.old }
        requires tables { IsVocabulary vocabulary.now }
        requires room { self.old.at + length bytes.now ≤ MAX_BYTES }
        ensures told { MatchResult result
            (λ size. step_at self.old.model (state_view self.old) bytes.now ≡ Goes size (state_view self.new))
            (λ fault. IsStop fault (step_at self.old.model (state_view self.old) bytes.now)) }
        ensures place { IfOk result (λ size. self.new.at ≡ self.old.at + size) }
        ensures size { IfOk result (λ size. (1 ≤ size) × (size ≤ length bytes.now)) }
        ensures ready { OnOk result (IsReady self.old.model self.new) }
        ensures model { OnOk result (self.new.model ≡ self.old.model) }
    {
        let at = self.at as u32;
        let [c, rest @ ..] = bytes else {
            return Err(LexFault::NoToken { at });
        };
        if self.fresh && *c == b'#' {
            return self.take_directive(alloc, bytes, rest);
        }
        self.take_piece(alloc, vocabulary, bytes)
    }
}

/// The tokens of a text, line splices apart.
fn divide(alloc: Global, bytes: &[u8], model: DataModel) -> Result<Tokens, LexFault>
    requires { length bytes.now ≤ MAX_BYTES }
    ensures { MatchResult result
        (λ tokens. divided (length bytes.now) model beginning bytes.now ≡ Read tokens)
        (λ fault. IsFault fault (divided (length bytes.now) model beginning bytes.now)) }
{
    let vocabulary = Vocabulary::new();
    let mut lexer = Lexer {
        model,
        at: 0,
        line: 1,
        fresh: true,
        macros: Macros::new(alloc, model),
        room: MAX_NAME_BYTES,
        tokens: Vec::new(alloc),
    };
    let mut rest = bytes;
    while !rest.is_empty() {
        match lexer.advance(alloc, &vocabulary, rest) {
            Ok(size) => rest = &rest[size..],
            Err(fault) => return Err(fault),
        }
    }
    Ok(Tokens::from_vec(lexer.tokens))
}

/// Whether nothing but white space stands before the next newline.
fn ends_blank(rest: &[u8]) -> bool
    ensures { result ≡ ends_blank rest.now }
{
    rest[run_size(Run::Blanks, 0, rest)..].starts_with(b"\n")
}

/// A backslash or its trigraph, and nothing but white space before the next newline.
fn is_splice(rest: &[u8]) -> bool
    ensures { result ≡ is_splice rest.now }
{
    (rest.starts_with(b"\\") && ends_blank(&rest[1..]))
        || (rest.starts_with(b"??/") && ends_blank(&rest[3..]))
}

/// A carriage return that no newline follows.
fn is_lone_return(rest: &[u8]) -> bool
    ensures { result ≡ is_lone_return rest.now }
{
    rest.starts_with(b"\r") && !rest[1..].starts_with(b"\n")
}

/// Where a C compiler may divide the text into other lines.
fn moves_lines(rest: &[u8]) -> bool
    ensures { result ≡ moves_lines rest.now }
{
    is_splice(rest) || is_lone_return(rest)
}

/// How many bytes stand before the first place where a C compiler may divide the text into other lines: all where there is
/// none (C11 5.1.1.2p1).
fn first_splice(bytes: &[u8]) -> usize
    ensures value { result ≡ splice_from bytes.now }
    ensures within { result ≤ length bytes.now }
{
    for i in 0..bytes.len() {
        if moves_lines(&bytes[i..]) {
            return i;
        }
    }
    bytes.len()
}

/// Where a fault is; nowhere where memory ran out.
fn place_of(fault: &LexFault) -> Option<u32>
    ensures { result ≡ fault_place fault.now }
{
    match fault {
        LexFault::NoToken { at }
        | LexFault::Directive { at }
        | LexFault::LongConstant { at }
        | LexFault::TooManyTokens { at } => Some(*at),
        LexFault::NoMemory => None,
    }
}

/// The tokens of a text under a data model, or its first fault (C11 6.4, 6.10).
#[tactic(auto, unfolding(c_tokens::specs::Reading::reading))]
pub fn lex(alloc: Global, bytes: &[u8], model: DataModel) -> Result<Tokens, LexFault>
    requires { length bytes.now ≤ MAX_BYTES }
    ensures { MatchResult result
        (λ tokens. reading model bytes.now ≡ Read tokens)
        (λ fault. IsFault fault (reading model bytes.now)) }
{
    let splice = first_splice(bytes);
    let divided = divide(alloc, bytes, model);
    if splice == bytes.len() {
        return divided;
    }
    let at = splice as u32;
    let Err(fault) = divided else {
        return Err(LexFault::NoToken { at });
    };
    let Some(place) = place_of(&fault) else {
        return Err(LexFault::NoMemory);
    };
    if at <= place {
        return Err(LexFault::NoToken { at });
    }
    Err(fault)
}

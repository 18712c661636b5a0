//! How deep the tokens of a text are nested, and which tokens the accepted C leaves out.

ghost use Rattle.std.specs.Prelude.{◌≡◌, ◌≤◌, ◌+◌, [], ◌∷◌, position, slice_get, IfOk, OnOk};
ghost use Rattle.std.specs.Option.{option_copied};
ghost use Rattle.c_tree.specs.Nesting as spec;
ghost use Rattle.c_tree.specs.Nesting.{IsFirstDeeper, measure};
ghost use Rattle.c_tree.specs.SpellsText.{kinds_of};

use c_tokens::{MAX_NESTING, Token, TokenKind};
use kv_base::{NoMemory, Stack};
use std::alloc::Global;

/// The number of the first token that the accepted C leaves out: a word for one of its parts, or a floating constant.
pub fn first_left_out(tokens: &[Token]) -> Option<usize>
    ensures { result ≡ position (λ token. spec.is_left_out token.kind) tokens.now }
{
    tokens.iter().position(|token| is_left_out(&token.kind))
}

/// Whether the accepted C leaves a token out.
fn is_left_out(kind: &TokenKind) -> bool
    ensures { result ≡ spec.is_left_out kind.now }
{
    matches!(
        kind,
        TokenKind::Float
            | TokenKind::Double
            | TokenKind::Complex
            | TokenKind::Imaginary
            | TokenKind::Union
            | TokenKind::Goto
            | TokenKind::Asm
            | TokenKind::UnderscoredAsm
            | TokenKind::UnderscoreAsm
            | TokenKind::Generic
            | TokenKind::Atomic
            | TokenKind::ThreadLocal
            | TokenKind::Alignas
            | TokenKind::Alignof
            | TokenKind::StaticAssert
            | TokenKind::FloatingConstant
    )
}

/// The number of the first token after which the text is nested deeper than the limit.
pub fn first_too_deep(alloc: Global, tokens: &[Token]) -> Result<Option<usize>, NoMemory>
    ensures { IfOk result (λ found. IsFirstDeeper MAX_NESTING (kinds_of tokens.now) found) }
{
    let mut counts = Counts {
        top: 0,
        below: Stack::new(alloc),
        depth: 1,
    };
    for i in 0..tokens.len() {
        counts.take(&tokens[i].kind, kind_at(tokens, i + 1))?;
        if counts.depth > MAX_NESTING {
            return Ok(Some(i));
        }
    }
    Ok(None)
}

/// The token of a number.
fn kind_at(tokens: &[Token], at: usize) -> Option<&TokenKind>
    ensures { option_copied result ≡ slice_get (kinds_of tokens.now) at }
{
    match tokens.get(at) {
        Some(token) => Some(&token.kind),
        None => None,
    }
}

/// The counts, and how deep they say that the text is nested.
#[derive(Drop)]
struct Counts {
    /// The newest count.
    top: usize,
    below: Stack<usize>,
    /// The sum of the counts, plus their number.
    depth: usize,
}

impl Counts {
    /// Goes on with a token, by the token after it.
    fn take(&mut self, kind: &TokenKind, after: Option<&TokenKind>) -> Result<(), NoMemory>
        requires exact { self.old.depth ≡ measure (self.old.top ∷ self.old.below) }
        requires within { self.old.depth ≤ MAX_NESTING }
        ensures exact { OnOk result (self.new.depth ≡ measure (self.new.top ∷ self.new.below)) }
        ensures counts { OnOk result (self.new.top ∷ self.new.below ≡ spec.counts_then kind.now (option_copied after.entry) (self.old.top ∷ self.old.below)) }
    {
        match kind {
            TokenKind::LeftParenthesis | TokenKind::LeftBracket | TokenKind::LeftBrace => {
                self.open()?
            }
            TokenKind::RightParenthesis | TokenKind::RightBracket => {
                self.close();
                self.raise();
            }
            TokenKind::RightBrace => {
                self.close();
                self.raise();
                self.end_item(after);
            }
            TokenKind::Semicolon => self.end_item(after),
            TokenKind::Comma => self.restart(0),
            TokenKind::Else => self.go_on(after),
            _ => self.raise(),
        }
        Ok(())
    }

    /// A bracket opens: one more is open, in which nothing is counted yet.
    fn open(&mut self) -> Result<(), NoMemory>
        requires exact { self.old.depth ≡ measure (self.old.top ∷ self.old.below) }
        requires within { self.old.depth ≤ MAX_NESTING }
        ensures exact { OnOk result (self.new.depth ≡ measure (self.new.top ∷ self.new.below)) }
        ensures counts { OnOk result (self.new.top ∷ self.new.below ≡ 0 ∷ (self.old.top ∷ self.old.below)) }
    {
        self.below.push(self.top)?;
        self.top = 0;
        self.depth += 1;
        Ok(())
    }

    /// A bracket closes. The outermost stays, with nothing counted.
    fn close(&mut self)
        requires { self.old.depth ≡ measure (self.old.top ∷ self.old.below) }
        ensures exact { self.new.depth ≡ measure (self.new.top ∷ self.new.below) }
        ensures counts { self.new.top ∷ self.new.below ≡ spec.close (self.old.top ∷ self.old.below) }
        ensures less { self.new.depth ≤ self.old.depth }
    {
        if let Some(count) = self.below.pop() {
            self.depth -= self.top + 1;
            self.top = count;
        }
    }

    /// One more counts in the innermost bracket.
    fn raise(&mut self)
        requires exact { self.old.depth ≡ measure (self.old.top ∷ self.old.below) }
        requires within { self.old.depth ≤ MAX_NESTING }
        ensures exact { self.new.depth ≡ measure (self.new.top ∷ self.new.below) }
        ensures counts { self.new.top ∷ self.new.below ≡ (self.old.top + 1) ∷ self.old.below }
    {
        self.top += 1;
        self.depth += 1;
    }

    /// The count of the innermost bracket begins anew, at 0 or 1.
    fn restart(&mut self, count: usize)
        requires exact { self.old.depth ≡ measure (self.old.top ∷ self.old.below) }
        requires within { self.old.depth ≤ MAX_NESTING + 1 }
        requires small { count ≤ 1 }
        ensures exact { self.new.depth ≡ measure (self.new.top ∷ self.new.below) }
        ensures counts { self.new.top ∷ self.new.below ≡ count ∷ self.old.below }
    {
        self.depth = self.depth - self.top + count;
        self.top = count;
    }

    /// An item ends, before this token.
    fn end_item(&mut self, after: Option<&TokenKind>)
        requires exact { self.old.depth ≡ measure (self.old.top ∷ self.old.below) }
        requires within { self.old.depth ≤ MAX_NESTING + 1 }
        ensures exact { self.new.depth ≡ measure (self.new.top ∷ self.new.below) }
        ensures counts { self.new.top ∷ self.new.below ≡ spec.end_item (option_copied after.entry) (self.old.top ∷ self.old.below) }
    {
        match after {
            Some(TokenKind::Else) => {}
            _ => self.restart(0),
        }
    }

    /// The count goes on, before this token.
    fn go_on(&mut self, after: Option<&TokenKind>)
        requires exact { self.old.depth ≡ measure (self.old.top ∷ self.old.below) }
        requires within { self.old.depth ≤ MAX_NESTING }
        ensures exact { self.new.depth ≡ measure (self.new.top ∷ self.new.below) }
        ensures counts { self.new.top ∷ self.new.below ≡ spec.go_on (option_copied after.entry) (self.old.top ∷ self.old.below) }
    {
        match after {
            Some(TokenKind::If) => self.restart(1),
            _ => self.raise(),
        }
    }
}

//! A place in the tokens of a text.

ghost use Rattle.std.specs.Prelude.{◌≡◌, ◌<◌, ◌+◌, [], ◌∷◌, slice_get, IfOk, OnOk, OnSome};
ghost use Rattle.std.specs.Option.{option_copied};
ghost use Rattle.c_tree.specs.Places as spec;
ghost use Rattle.c_tree.specs.SpellsText.{kinds_of, beginning};

use crate::{BlockScope, Scopes};
use c_tokens::{MAX_DEPTH, Token, TokenKind};
use kv_base::{Bytes, NoMemory, Stack};
use std::alloc::Global;
use std::marker::Model;

/// The number of the next token, and what is declared there.
#[derive(Drop)]
pub struct Cursor {
    alloc: Global,
    at: usize,
    scopes: Scopes,
    /// How many rules that may reach themselves are at work.
    depth: usize,
    /// How deep the trees are that the innermost of these rules has read.
    height: usize,
}

impl Model for Cursor {
    ghost use Rattle.c_tree.specs.Places.{Place};

    ghost Value = { Place };

    ghost view = { λ cursor. record { at = cursor.at; blocks = cursor.scopes } };
}

impl Cursor {
    /// Before the first token.
    pub fn new(alloc: Global) -> Result<Cursor, NoMemory>
        ensures { IfOk result (λ made. made ≡ beginning) }
    {
        let scopes = Scopes::new(alloc)?;
        Ok(Cursor {
            alloc,
            at: 0,
            scopes,
            depth: 0,
            height: 0,
        })
    }

    /// The number of the next token.
    pub fn at(&self) -> usize
        ensures { result ≡ self.now.at }
    {
        self.at
    }

    /// What the next token is, if there is one.
    pub fn kind<'t>(&self, tokens: &'t [Token]) -> Option<&'t TokenKind>
        ensures value { option_copied result ≡ slice_get (kinds_of tokens.now) self.now.at }
        ensures within { OnSome result (self.now.at < usize.MAX) }
    {
        match tokens.get(self.at) {
            Some(token) => Some(&token.kind),
            None => None,
        }
    }

    /// What the token after the next one is, if there is one.
    pub fn second<'t>(&self, tokens: &'t [Token]) -> Option<&'t TokenKind>
        ensures value { option_copied result ≡ slice_get (kinds_of tokens.now) (self.now.at + 1) }
        ensures within { OnSome result (self.now.at + 1 < usize.MAX) }
    {
        if self.at >= tokens.len() {
            return None;
        }
        match tokens.get(self.at + 1) {
            Some(token) => Some(&token.kind),
            None => None,
        }
    }

    /// Goes on to the token after the next one.
    pub fn skip(&mut self)
        requires { self.old.at < usize.MAX }
        ensures { self.new ≡ spec.next self.old }
    {
        self.at += 1;
    }

    /// Whether a name is a typedef name here.
    pub fn names_type(&self, name: &[u8]) -> bool
        ensures { result ≡ spec.names_type self.now.blocks name.now }
    {
        self.scopes.names_type(name)
    }

    /// Declares a name in the innermost block. Without memory for it the cursor is no longer of use.
    pub fn declare(&mut self, name: Bytes, is_type: bool) -> Result<(), NoMemory>
        ensures { OnOk result (self.new ≡ spec.declare self.old name is_type) }
    {
        self.scopes.declare(name, is_type)
    }

    /// Goes into a rule that may reach itself. What is handed out goes back into `ascend`.
    pub fn descend(&mut self) -> Result<usize, NoMemory>
        ensures { OnOk result (self.new ≡ self.old) }
    {
        if self.depth >= MAX_DEPTH {
            return Err(NoMemory);
        }
        self.depth += 1;
        let height = self.height;
        self.height = 0;
        Ok(height)
    }

    /// Comes back from such a rule with a tree, which is one node over what the rule has read.
    pub fn ascend<Given: Drop>(&mut self, height: usize, given: Given) -> Result<Given, NoMemory>
        ensures given { IfOk result (λ made. made ≡ given) }
        ensures place { OnOk result (self.new ≡ self.old) }
    {
        let given = self.grow(given)?;
        self.depth = self.depth.saturating_sub(1);
        self.height = self.height.max(height);
        Ok(given)
    }

    /// A tree is one node over what the rule at work has read so far.
    pub fn grow<Given: Drop>(&mut self, given: Given) -> Result<Given, NoMemory>
        ensures given { IfOk result (λ made. made ≡ given) }
        ensures place { OnOk result (self.new ≡ self.old) }
    {
        if self.height >= MAX_DEPTH {
            return Err(NoMemory);
        }
        self.height += 1;
        Ok(given)
    }

    /// A block begins.
    pub fn enter(&mut self) -> Result<(), NoMemory>
        ensures { OnOk result (self.new ≡ spec.enter self.old) }
    {
        self.scopes.enter(Stack::new(self.alloc))
    }

    /// A block begins, with names that are declared in it.
    pub fn enter_with(&mut self, block: BlockScope) -> Result<(), NoMemory>
        ensures { OnOk result (self.new ≡ spec.enter_with self.old block) }
    {
        self.scopes.enter(block)
    }

    /// The innermost block ends. What it declared is handed out.
    pub fn leave(&mut self) -> BlockScope
        ensures left { self.new ≡ spec.leave self.old }
        ensures block { result ≡ spec.first_of self.old.blocks }
    {
        self.scopes.leave()
    }
}

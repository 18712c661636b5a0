//! `if` (C11 6.8.4.1).

ghost use Rattle.std.specs.Prelude.{◌≡◌, ◌<◌, ℕ};
ghost use Rattle.c_tree.specs.SpellsText.{kinds_of};
ghost use Rattle.c_grammar.specs.Readers as readers;
ghost use Rattle.c_grammar.specs.ReadExpressions.{and_then};
ghost use Rattle.c_grammar.specs.ReadStatements as spec;
ghost use Rattle.c_cursor.specs.Reads.{Reads};
ghost use Rattle.c_cursor.specs.Parts.{ReadsExpressions, ReadsPart};
ghost use Rattle.c_control.specs.Chains.{branch, last_else, leaves};

use crate::Control;
use c_cursor::{Cursor, Fault, Mark, mark_at, refuse};
use c_tokens::Token;
use c_tree::{Branch, Expression, Statement};
use sqlite_items::Items;
use std::alloc::Global;

/// Two blocks end, this many times.
fn leave_branches(count: usize, place: &mut Cursor)
    ensures { place.new ≡ leaves count place.old }
{
    for _turn in 0..count {
        place.leave();
        place.leave();
    }
}

impl<
    't,
    R: Fn(Global, &[Token], usize, u8, &mut Cursor) -> Result<Expression, Fault>,
    D,
    S: Fn(Global, &[Token], usize, &mut Cursor) -> Result<Statement, Fault>,
> Control<'t, R, D, S> {
    /// `if (test) body`, whose two blocks stay open.
    fn branch(&self, place: &mut Cursor) -> Result<Branch, Fault>
        requires expressions { ReadsExpressions self.now.inside.steps (R.pre self.now.inside.read) (R.post self.now.inside.read) }
        requires runs { ReadsPart spec.statement self.now.inside.depth (S.pre self.now.inside.statement) (S.post self.now.inside.statement) }
        requires here { place.old.at < usize.MAX }
        ensures { let kinds = kinds_of self.now.inside.tokens.now in Reads (branch kinds (readers.read kinds self.now.inside.steps) (spec.statement kinds self.now.inside.depth) place.old) result place.new }
    {
        let at = place.at();
        place.skip();
        place.enter()?;
        let test = self.inside.test(place)?;
        let (test, body) = self.inside.opened(test, place)?;
        Ok(Branch { test, body, at })
    }

    /// What stands after a last `else`, with the branches before it, whose blocks are still open.
    fn last_else(&self, branches: Items<Branch>, place: &mut Cursor) -> Result<Statement, Fault>
        requires runs { ReadsPart spec.statement self.now.inside.depth (S.pre self.now.inside.statement) (S.post self.now.inside.statement) }
        ensures { Reads (last_else (spec.statement (kinds_of self.now.inside.tokens.now) self.now.inside.depth) branches place.old) result place.new }
    {
        let otherwise = self.inside.boxed(place)?;
        leave_branches(branches.len(), place);
        Ok(Statement::IfElse {
            branches,
            otherwise,
        })
    }

    /// `if`, `else if` and so on, and what stands after a last `else`.
    pub fn chain(&self, place: &mut Cursor) -> Result<Statement, Fault>
        requires expressions { ReadsExpressions self.now.inside.steps (R.pre self.now.inside.read) (R.post self.now.inside.read) }
        requires runs { ReadsPart spec.statement self.now.inside.depth (S.pre self.now.inside.statement) (S.post self.now.inside.statement) }
        requires here { place.old.at < usize.MAX }
        ensures { let kinds = kinds_of self.now.inside.tokens.now in Reads (and_then (spec.chain kinds (readers.read kinds self.now.inside.steps) (spec.statement kinds self.now.inside.depth) self.now.inside.steps place.old) spec.chained) result place.new }
    {
        let mut branches = Items::new(self.inside.alloc);
        for _turn in 0..self.inside.steps {
            let branch = self.branch(place)?;
            branches.push(branch)?;
            let Mark::Else = mark_at(self.inside.tokens, place) else {
                leave_branches(branches.len(), place);
                return Ok(Statement::If { branches });
            };
            place.skip();
            place.leave();
            place.enter()?;
            let Mark::If = mark_at(self.inside.tokens, place) else {
                return self.last_else(branches, place);
            };
        }
        Err(refuse(place))
    }
}

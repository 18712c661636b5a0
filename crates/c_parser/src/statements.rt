//! All statements (C11 6.8), by their first token.

ghost use Rattle.c_tree.specs.SpellsText.{kinds_of};
ghost use Rattle.c_grammar.specs.Marks.{mark_at};
ghost use Rattle.c_grammar.specs.Readers as readers;
ghost use Rattle.c_grammar.specs.ReadStatements as spec;
ghost use Rattle.c_cursor.specs.Reads.{Reads};
ghost use Rattle.c_cursor.specs.Parts.{ReadsExpressions, ReadsPart};

use c_control::{Control, break_statement, continue_statement};
use c_cursor::{Cursor, Fault, Inside};
use c_statements::Statements;
use c_tokens::{Token, TokenKind};
use c_tree::{Declaration, Expression, Statement};
use std::alloc::Global;

/// A statement, over what reads its parts, and the statements inside one that chooses or repeats.
pub fn statement_over<
    R: Fn(Global, &[Token], usize, u8, &mut Cursor) -> Result<Expression, Fault> + Copy,
    D: Fn(Global, &[Token], usize, &mut Cursor) -> Result<Declaration, Fault> + Copy,
    S: Fn(Global, &[Token], usize, &mut Cursor) -> Result<Statement, Fault> + Copy,
    C: Fn(Global, &[Token], usize, &mut Cursor) -> Result<Statement, Fault> + Copy,
>(inside: Inside<'_, R, D, S>, controlled: C, place: &mut Cursor) -> Result<Statement, Fault>
    requires expressions { ReadsExpressions inside.steps (R.pre inside.read) (R.post inside.read) }
    requires declares { ReadsPart spec.declaration inside.depth (D.pre inside.declaration) (D.post inside.declaration) }
    requires runs { ReadsPart spec.statement inside.depth (S.pre inside.statement) (S.post inside.statement) }
    requires controls { ReadsPart spec.statement inside.depth (C.pre controlled) (C.post controlled) }
    ensures { let kinds = kinds_of inside.entry.tokens.now in Reads (spec.statement_by kinds (readers.read kinds inside.entry.steps) (spec.declaration kinds inside.entry.depth) (spec.statement kinds inside.entry.depth) inside.entry.steps place.old (mark_at kinds place.old)) result place.new }
{
    let tokens = inside.tokens;
    let control = Control {
        inside: Inside {
            alloc: inside.alloc,
            tokens,
            steps: inside.steps,
            depth: inside.depth,
            read: inside.read,
            declaration: inside.declaration,
            statement: controlled,
        },
    };
    match place.kind(tokens) {
        Some(TokenKind::LeftBrace) => Statements { inside }.block(place),
        Some(TokenKind::Semicolon) => {
            let at = place.at();
            place.skip();
            Ok(Statement::Empty { at })
        }
        Some(TokenKind::Name { text }) => Statements { inside }.named(text, place),
        Some(TokenKind::Case) => Statements { inside }.case(place),
        Some(TokenKind::Default) => Statements { inside }.default(place),
        Some(TokenKind::If) => control.chain(place),
        Some(TokenKind::Switch) => control.switch(place),
        Some(TokenKind::While) => control.while_loop(place),
        Some(TokenKind::Do) => Control { inside }.do_loop(place),
        Some(TokenKind::For) => control.for_loop(place),
        Some(TokenKind::Break) => break_statement(tokens, place),
        Some(TokenKind::Continue) => continue_statement(tokens, place),
        Some(TokenKind::Return) => Control { inside }.return_statement(place),
        _ => inside.value_statement(place),
    }
}

//! Texts of C, and what the parser says of each.
#![tactic(auto)]

#[cfg(test)]
mod cursor;
#[cfg(test)]
mod declarations;
#[cfg(test)]
mod expressions;
#[cfg(test)]
mod limits;
#[cfg(test)]
mod places;
#[cfg(test)]
mod scopes;
#[cfg(test)]
mod statements;

use c_lexer::{LexFault, MAX_BYTES, lex};
use c_parser::{ParseFault, parse};
use c_tokens::{DataModel, Token};
use c_tree::{BlockItem, Declarator, Declared, External, Initialiser, Statement, Tree};
use std::alloc::{AllocError, Global};

/// The word for a token.
fn word_at(alloc: Global, tokens: &[Token], at: usize) -> Result<String, AllocError> {
    match tokens.get(at) {
        Some(Token { kind, .. }) => format!(in alloc; "{kind:?}"),
        None => String::from_str(alloc, "no token"),
    }
}

fn shown_fault(alloc: Global, tokens: &[Token], fault: ParseFault) -> Result<String, AllocError> {
    match fault {
        ParseFault::LeftOut { at } => {
            let word = word_at(alloc, tokens, at)?;
            format!(in alloc; "left out: {word} at {at}")
        }
        ParseFault::TooDeep { at } => format!(in alloc; "nested too deep at {at}"),
        ParseFault::Syntax { .. } => String::from_str(alloc, "syntax"),
        ParseFault::NoMemory => Err(AllocError),
    }
}

/// A word for a statement; what stands in it where that is a branch.
fn statement_word(statement: &Statement) -> &'static str {
    match statement {
        Statement::Block { .. } => "block",
        Statement::Empty { .. } => "empty",
        Statement::Value { .. } => "value",
        Statement::Label { .. } => "label",
        Statement::Case { .. } => "case",
        Statement::Default { .. } => "default",
        Statement::If { .. } => "if",
        Statement::IfElse { .. } => "if else",
        Statement::Switch { .. } => "switch",
        Statement::While { .. } => "while",
        Statement::Do { .. } => "do",
        Statement::For { .. } => "for",
        Statement::Break { .. } => "break",
        Statement::Continue { .. } => "continue",
        Statement::Return { .. } => "return",
    }
}

/// What each branch of a statement runs, in brackets, and the statement of a last `else`.
fn shown_statement(alloc: Global, statement: &Statement) -> Result<String, AllocError> {
    let mut line = String::from_str(alloc, statement_word(statement))?;
    if let Statement::If { branches } | Statement::IfElse { branches, .. } = statement {
        for branch in branches.as_slice() {
            line.push('(')?;
            line.push_str(statement_word(&branch.body))?;
            line.push(')')?;
        }
    }
    if let Statement::IfElse { otherwise, .. } = statement {
        line.push(' ')?;
        line.push_str(statement_word(otherwise.get()))?;
    }
    Ok(line)
}

fn shown_items(alloc: Global, items: &[BlockItem]) -> Result<String, AllocError> {
    let mut line = String::new(alloc);
    for item in items {
        if !line.is_empty() {
            line.push_str("; ")?;
        }
        match item {
            BlockItem::Declared { .. } => line.push_str("declaration")?,
            BlockItem::Run { statement } => { line.push_str(&shown_statement(alloc, statement)?)? }
        }
    }
    Ok(line)
}

/// The items of the last function of a text.
fn shown_tree(alloc: Global, tree: &Tree) -> Result<String, AllocError> {
    match tree.externals.as_slice() {
        [.., External::Defined { body, .. }] => shown_items(alloc, body.as_slice()),
        _ => String::from_str(alloc, "no function"),
    }
}

/// The items of the last function of a text, or why it has no tree.
///
/// # Errors
///
/// Out of memory, or a text whose tree is too deep.
pub fn shown(alloc: Global, text: &[u8]) -> Result<String, AllocError> {
    if text.len() > MAX_BYTES {
        return String::from_str(alloc, "too long");
    }
    let tokens = match lex(alloc, text, DataModel::Lp64) {
        Ok(tokens) => tokens,
        Err(LexFault::NoMemory) => return Err(AllocError),
        Err(fault) => return format!(in alloc; "{fault}"),
    };
    match parse(alloc, &tokens) {
        Ok(tree) => shown_tree(alloc, &tree),
        Err(fault) => shown_fault(alloc, tokens.as_slice(), fault),
    }
}

/// The same, with `accepted` for each tree.
///
/// # Errors
///
/// Out of memory, or a text whose tree is too deep.
pub fn answer(alloc: Global, text: &[u8]) -> Result<String, AllocError> {
    if text.len() > MAX_BYTES {
        return String::from_str(alloc, "too long");
    }
    let tokens = match lex(alloc, text, DataModel::Lp64) {
        Ok(tokens) => tokens,
        Err(LexFault::NoMemory) => return Err(AllocError),
        Err(fault) => return format!(in alloc; "{fault}"),
    };
    match parse(alloc, &tokens) {
        Ok(_) => String::from_str(alloc, "accepted"),
        Err(fault) => shown_fault(alloc, tokens.as_slice(), fault),
    }
}

/// A token's number, with its line by the tree, after what stands there.
fn push_place(
    alloc: Global,
    line: &mut String,
    tree: &Tree,
    word: &str,
    at: usize,
) -> Result<(), AllocError> {
    let Some(of_token) = tree.lines.get(at) else {
        return line.push_str("no token");
    };
    if !line.is_empty() {
        line.push_str("; ")?;
    }
    let place = format!(in alloc; "{word} {at} in line {of_token}")?;
    line.push_str(&place)
}

/// The first token of an initialiser, or of each part of one in braces.
fn push_initialiser(
    alloc: Global,
    line: &mut String,
    tree: &Tree,
    initialiser: &Initialiser,
) -> Result<(), AllocError> {
    let parts = match initialiser {
        Initialiser::Value { at, .. } => return push_place(alloc, line, tree, "value", *at),
        Initialiser::Braces { parts, .. } => parts.as_slice(),
    };
    for part in parts {
        if let Initialiser::Value { at, .. } = part {
            push_place(alloc, line, tree, "value", *at)?;
        }
    }
    Ok(())
}

/// The `...` of functions and the first tokens of initialisers.
fn push_declared(
    alloc: Global,
    line: &mut String,
    tree: &Tree,
    declared: &Declared,
) -> Result<(), AllocError> {
    match declared {
        Declared::Plain {
            declarator: Declarator::Function {
                variadic: Some(at),
                ..
            },
        } => push_place(alloc, line, tree, "...", *at),
        Declared::Initialised { initialiser, .. } => {
            push_initialiser(alloc, line, tree, initialiser)
        }
        _ => Ok(()),
    }
}

/// The same for all declarations of a text outside functions.
fn shown_places(alloc: Global, tree: &Tree) -> Result<String, AllocError> {
    let mut line = String::new(alloc);
    for external in tree.externals.as_slice() {
        if let External::Declared { declaration } = external {
            for declared in declaration.names.as_slice() {
                push_declared(alloc, &mut line, tree, declared)?;
            }
        }
    }
    Ok(line)
}

/// The numbers and lines of each `...` and of the first token of each initialiser, or why there is no tree.
///
/// # Errors
///
/// Out of memory, or a text whose tree is too deep.
pub fn token_places(alloc: Global, text: &[u8]) -> Result<String, AllocError> {
    if text.len() > MAX_BYTES {
        return String::from_str(alloc, "too long");
    }
    let tokens = match lex(alloc, text, DataModel::Lp64) {
        Ok(tokens) => tokens,
        Err(LexFault::NoMemory) => return Err(AllocError),
        Err(fault) => return format!(in alloc; "{fault}"),
    };
    match parse(alloc, &tokens) {
        Ok(tree) => shown_places(alloc, &tree),
        Err(fault) => shown_fault(alloc, tokens.as_slice(), fault),
    }
}

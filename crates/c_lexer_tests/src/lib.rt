//! Readings of C texts, each shown on one line.
#![tactic(auto)]

#[cfg(test)]
mod circles;
#[cfg(test)]
mod constants;
#[cfg(test)]
mod directives;
#[cfg(test)]
mod headers;
#[cfg(test)]
mod hostile;

use c_lexer::{LexFault, MAX_BYTES, lex};
use c_tokens::{DataModel, TokenKind};
use std::alloc::{AllocError, Global};

/// A name as it stands, a constant as its value and type, and every other token as the word for it.
fn shown_kind(alloc: Global, kind: &TokenKind) -> Result<String, AllocError> {
    match kind {
        TokenKind::Name { text } => {
            let mut name = String::new(alloc);
            for byte in text.as_slice() {
                name.push(char::from(*byte))?;
            }
            Ok(name)
        }
        TokenKind::Constant { kind, value } => format!(in alloc; "{value}:{kind:?}"),
        TokenKind::TypeWord { kind } => format!(in alloc; ":{kind:?}"),
        other => format!(in alloc; "{other:?}"),
    }
}

/// The tokens of a text with a space between them, or the fault.
///
/// # Errors
///
/// Want of memory.
pub fn shown(alloc: Global, text: &[u8], model: DataModel) -> Result<String, AllocError> {
    if text.len() > MAX_BYTES {
        return String::from_str(alloc, "too long");
    }
    let tokens = match lex(alloc, text, model) {
        Ok(tokens) => tokens,
        Err(LexFault::NoMemory) => return Err(AllocError),
        Err(fault) => return format!(in alloc; "{fault}"),
    };
    let mut line = String::new(alloc);
    for token in tokens.as_slice() {
        if !line.is_empty() {
            line.push(' ')?;
        }
        line.push_str(&shown_kind(alloc, &token.kind)?)?;
    }
    Ok(line)
}

//! The rules of control, over what reads the parts of a statement.

use c_cursor::Inside;

/// The rules of statements that choose, repeat or jump (C11 6.8.4 to 6.8.6).
#[derive(Clone, Copy)]
pub struct Control<'t, R, D, S> {
    pub inside: Inside<'t, R, D, S>,
}

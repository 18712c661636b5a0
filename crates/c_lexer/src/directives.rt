ghost use Rattle.std.specs.Prelude.{◌≡◌, ◌≤◌, ◌+◌, length, IfOk, Bool, ℕ};
ghost use Rattle.std.specs.Option.{option_map};
ghost use Rattle.c_tokens.specs.Pieces.{begins_name};
ghost use Rattle.c_tokens.specs.Directives.{Outside, after, define_form, ends_line, first_or_0, form_of, include_form, is_commented, is_in_block, line_from, number_size, open_comment, opens_block, opens_comment, opens_line, replacement, without_space, word_size};
ghost use Rattle.c_lexer.specs.Forms.{context_view, form_view, replacement_size, shown};
ghost use Rattle.std.specs.Prelude.{◌<◌, drop};
ghost use Rattle.c_tokens.specs.Directives.{InQuotes, InBlock};

use c_macros::{Header, find_header};
use c_scan::{Run, begins_digit, begins_name, begins_number, is_blank, run_size, suffix_of};
use kv_base::{Bytes, NoMemory, Sequence};
use std::alloc::Global;

/// Where a byte of a directive's line stands.
#[derive(Clone, Copy)]
pub(crate) enum Context {
    /// Outside of quotes and comments.
    Outside,
    /// In a string or a character constant; `taken` after a backslash.
    InQuotes { quote: u8, taken: bool },
    /// In a comment to the end of the line.
    InLine,
    /// On the `*` that opens a block comment.
    AtOpening,
    /// In a block comment, after its opening; `starred` after a `*`.
    InBlock { starred: bool },
}

/// Whether the byte opens a comment to the end of the line, with the byte after it.
fn opens_line(context: Context, c: u8, next: u8) -> bool
    ensures { result ≡ opens_line (context_view context) c next }
{
    match context {
        Context::Outside => c == b'/' && next == b'/',
        _ => false,
    }
}

/// Whether the byte opens a block comment, with the byte after it.
fn opens_block(context: Context, c: u8, next: u8) -> bool
    ensures { result ≡ opens_block (context_view context) c next }
{
    match context {
        Context::Outside => c == b'/' && next == b'*',
        _ => false,
    }
}

/// Whether the byte stands in a comment.
fn is_commented(context: Context) -> bool
    ensures { result ≡ is_commented (context_view context) }
{
    match context {
        Context::Outside | Context::InQuotes { .. } => false,
        Context::InLine | Context::AtOpening | Context::InBlock { .. } => true,
    }
}

/// Whether the byte stands in a block comment.
fn is_in_block(context: Context) -> bool
    ensures { result ≡ is_in_block (context_view context) }
{
    match context {
        Context::Outside | Context::InQuotes { .. } | Context::InLine => false,
        Context::AtOpening | Context::InBlock { .. } => true,
    }
}

/// Where the byte after this one stands, if this one stands outside of quotes and comments.
fn after_outside(c: u8, next: u8) -> Context
    ensures { context_view result ≡ after Outside c next }
{
    if opens_line(Context::Outside, c, next) {
        return Context::InLine;
    }
    if opens_block(Context::Outside, c, next) {
        return Context::AtOpening;
    }
    if c == b'"' || c == b'\'' {
        return Context::InQuotes {
            quote: c,
            taken: false,
        };
    }
    Context::Outside
}

/// Where the byte after this one stands, if this one stands in quotes.
fn after_quoted(quote: u8, taken: bool, c: u8) -> Context
    ensures { context_view result ≡ after (InQuotes quote taken) c 0 }
{
    if taken {
        return Context::InQuotes {
            quote,
            taken: false,
        };
    }
    if c == quote {
        return Context::Outside;
    }
    Context::InQuotes {
        quote,
        taken: c == b'\\',
    }
}

/// Where the byte after this one stands, if this one stands in a block comment.
fn after_block(starred: bool, c: u8) -> Context
    ensures { context_view result ≡ after (InBlock starred) c 0 }
{
    if starred && c == b'/' {
        Context::Outside
    } else {
        Context::InBlock { starred: c == b'*' }
    }
}

/// Where the byte after this one stands.
fn after(context: Context, c: u8, next: u8) -> Context
    ensures { context_view result ≡ after (context_view context) c next }
{
    match context {
        Context::Outside => after_outside(c, next),
        Context::InQuotes { quote, taken } => after_quoted(quote, taken, c),
        Context::InLine => Context::InLine,
        Context::AtOpening => Context::InBlock { starred: false },
        Context::InBlock { starred } => after_block(starred, c),
    }
}

/// A newline outside of a block comment ends the line.
fn ends_line(context: Context, c: u8) -> bool
    ensures { result ≡ ends_line (context_view context) c }
{
    c == b'\n' && !is_in_block(context)
}

/// The byte after this place, or 0 at the end.
fn byte_after(bytes: &[u8], at: usize) -> u8
    requires { at < length bytes.now }
    ensures { result ≡ first_or_0 (drop (at + 1) bytes.now) }
{
    if at + 1 < bytes.len() {
        bytes[at + 1]
    } else {
        0
    }
}

/// A byte as the line shows it: those of comments as spaces.
fn shown(context: Context, c: u8, next: u8) -> u8
    ensures { result ≡ shown (context_view context) c next }
{
    if is_commented(context) || opens_line(context, c, next) || opens_block(context, c, next) {
        b' '
    } else {
        c
    }
}

/// The line of a directive after its `#`: its bytes up to the newline that ends it, those of comments as
/// spaces (C11 5.1.1.2p1).
#[tactic(auto, unfolding(c_tokens::specs::Directives::line_from))]
pub(crate) fn line_of(alloc: Global, bytes: &[u8]) -> Result<Bytes, NoMemory>
    ensures ok { IfOk result (λ line. line ≡ line_from Outside bytes.now) }
    ensures within { IfOk result (λ line. length line ≤ length bytes.now) }
{
    let mut line = Vec::new(alloc);
    let mut context = Context::Outside;
    for (i, c) in bytes.iter().enumerate() {
        if ends_line(context, *c) {
            break;
        }
        let next = byte_after(bytes, i);
        line.push(shown(context, *c, next))?;
        context = after(context, *c, next);
    }
    Ok(Sequence::from_vec(line))
}

/// Where the comment begins that isn't closed on the line of a directive, if there is one.
#[tactic(auto, unfolding(c_tokens::specs::Directives::open_comment))]
pub(crate) fn open_comment(bytes: &[u8]) -> Option<usize>
    ensures { result ≡ open_comment Outside 0 0 bytes.now }
{
    let mut began = 0;
    let mut context = Context::Outside;
    for (i, c) in bytes.iter().enumerate() {
        if ends_line(context, *c) {
            return None;
        }
        let next = byte_after(bytes, i);
        if opens_block(context, *c, next) {
            began = i;
        }
        context = after(context, *c, next);
    }
    if is_in_block(context) {
        Some(began)
    } else {
        None
    }
}

/// What a directive says (6.10).
#[derive(Clone, Copy)]
pub(crate) enum Form<'a> {
    /// Nothing that changes what comes.
    Nothing,
    /// An `#include` of a header.
    Includes {
        header: Header,
    },
    /// A `#define`: the name, the text that replaces it, and that text's place in the line.
    Defines {
        name: &'a [u8],
        text: &'a [u8],
        place: usize,
    },
    /// No directive of the accepted C.
    Wrong,
}

/// The text after the white space at its front.
fn without_space(text: &[u8]) -> &[u8]
    ensures value { result.now ≡ without_space text.now }
    ensures within { length result.now ≤ length text.now }
{
    &text[run_size(Run::Space, 0, text)..]
}

/// How long the word at the front is.
fn word_size(text: &[u8]) -> usize
    ensures size { result ≡ word_size text.now }
    ensures within { result ≤ length text.now }
{
    run_size(Run::Word, 0, text)
}

/// How long the name or the number at the front is; 0 where neither is there.
fn replacement_size(text: &[u8]) -> usize
    ensures size { result ≡ replacement_size text.now }
    ensures within { result ≤ length text.now }
{
    if begins_name(text) {
        return word_size(text);
    }
    if begins_digit(text) {
        return run_size(Run::Number, 0, text);
    }
    0
}

/// The replacement in a `#define`: a name or an integer constant, and nothing after it.
#[tactic(auto, unfolding(c_tokens::specs::Directives::replacement))]
fn replacement<'a>(place: usize, name: &'a [u8], text: &'a [u8]) -> Form<'a>
    ensures { form_view result ≡ replacement place name.entry.now text.entry.now }
{
    let size = replacement_size(text);
    if size == 0 || !is_blank(&text[size..]) {
        return Form::Wrong;
    }
    if begins_name(text) || suffix_of(&text[..size]).is_some() {
        return Form::Defines {
            name,
            text: &text[..size],
            place,
        };
    }
    Form::Wrong
}

/// What follows the word `define` (6.10.3).
#[tactic(auto, unfolding(c_tokens::specs::Directives::define_form))]
fn define_form<'a>(len: usize, rest: &'a [u8]) -> Form<'a>
    requires { length rest.now ≤ len }
    ensures { form_view result ≡ define_form len rest.entry.now }
{
    if !begins_name(rest) {
        return Form::Wrong;
    }
    let size = word_size(rest);
    let text = without_space(&rest[size..]);
    replacement(len - text.len(), &rest[..size], text)
}

/// What follows the word `include` (6.10.2).
#[tactic(auto, unfolding(c_tokens::specs::Directives::include_form))]
fn include_form<'a>(rest: &'a [u8]) -> Form<'a>
    ensures { form_view result ≡ include_form rest.entry.now }
{
    let size = run_size(Run::Spelling, 0, rest);
    match find_header(&rest[..size]) {
        Some(header) => {
            if is_blank(&rest[size..]) {
                return Form::Includes { header };
            }
            Form::Wrong
        }
        None => Form::Wrong,
    }
}

/// What a directive says, by its line after the `#`.
#[tactic(auto, unfolding(c_tokens::specs::Directives::form_of))]
pub(crate) fn form_of<'a>(line: &'a [u8]) -> Form<'a>
    ensures { form_view result ≡ form_of line.entry.now }
{
    let text = without_space(line);
    if text.is_empty() || begins_number(text) {
        return Form::Nothing;
    }
    let size = word_size(text);
    let word = &text[..size];
    let rest = without_space(&text[size..]);
    if word == b"pragma".as_slice() {
        return Form::Nothing;
    }
    if word == b"line".as_slice() {
        if begins_number(rest) {
            return Form::Nothing;
        }
        return Form::Wrong;
    }
    if word == b"include".as_slice() {
        return include_form(rest);
    }
    if word == b"define".as_slice() {
        return define_form(line.len(), rest);
    }
    Form::Wrong
}

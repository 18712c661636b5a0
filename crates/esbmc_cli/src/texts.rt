//! The texts that are printed.

ghost use Rattle.std.specs.Prelude.{◌≡◌, ◌++◌, IfOk, codes, string_bytes};
ghost use Rattle.esbmc_cli.specs.Texts.{check_text, failed_text, successful_text, usage_text, refused_text, line_text, read_fault_text, missing_text};

use c_source::Refusal;
use c_straight_model::CheckKind;
use kv_base::NoMemory;
use std::alloc::Global;

/// How a check is called in print.
fn check_name(check: CheckKind) -> &'static str
    ensures { result.now ≡ check_text check }
{
    match check {
        CheckKind::Assertion => "assertion",
        CheckKind::ArrayBounds => "array bounds",
        CheckKind::Dereference => "dereference",
        CheckKind::PointerArithmetic => "pointer arithmetic",
        CheckKind::Division => "division by zero",
        CheckKind::Shift => "shift distance",
        CheckKind::Overflow => "arithmetic overflow",
    }
}

/// The text for a check that can break, and its line.
pub fn failed(alloc: Global, check: CheckKind, line: u32) -> Result<String, NoMemory>
    ensures { IfOk result (λ text. string_bytes text ≡ failed_text check line) }
{
    let name = check_name(check);
    format!(in alloc; "violated: {name} at line {line}\nVERIFICATION FAILED\n")
}

/// The text where no check can break.
pub fn successful() -> &'static [u8]
    ensures { result.now ≡ successful_text }
{
    b"VERIFICATION SUCCESSFUL\n"
}

/// How the program is called.
pub fn usage() -> &'static [u8]
    ensures { result.now ≡ usage_text }
{
    b"usage: esbmc_k [options] FILE\n"
}

/// An error with its line.
fn at_line(alloc: Global, line: u32, text: &str) -> Result<String, NoMemory>
    ensures { IfOk result (λ made. string_bytes made ≡ line_text line text.now) }
{
    format!(in alloc; "error: line {line}: {text}\n")
}

/// The error for a word that the accepted C leaves out.
fn left_out(alloc: Global, word: &str, line: u32) -> Result<String, NoMemory>
    ensures { IfOk result (λ made. string_bytes made ≡ line_text line (codes "left out: " ++ word.now)) }
{
    format!(in alloc; "error: line {line}: left out: {word}\n")
}

/// The text of a refusal.
pub fn refused(alloc: Global, refusal: Refusal) -> Result<String, NoMemory>
    ensures { IfOk result (λ text. string_bytes text ≡ refused_text refusal) }
{
    match refusal {
        Refusal::TooLong => String::from_str(alloc, "error: file longer than 1048576 bytes\n"),
        Refusal::NoToken { line } => at_line(alloc, line, "no token"),
        Refusal::Directive { line } => at_line(alloc, line, "directive"),
        Refusal::LongConstant { line } => at_line(alloc, line, "constant too large"),
        Refusal::TooManyTokens { line } => at_line(alloc, line, "more than 200000 tokens"),
        Refusal::LeftOut { word, line } => left_out(alloc, word, line),
        Refusal::TooDeep { line } => at_line(alloc, line, "nested too deep"),
        Refusal::Syntax { line } => at_line(alloc, line, "syntax"),
        Refusal::NotYet => String::from_str(alloc, "error: not yet\n"),
    }
}

/// The text where the file couldn't be read.
pub fn read_fault() -> &'static [u8]
    ensures { result.now ≡ read_fault_text }
{
    b"error: read fault\n"
}

/// The text where there is no such file.
pub fn missing() -> &'static [u8]
    ensures { result.now ≡ missing_text }
{
    b"error: no such file\n"
}

ghost use Rattle.std.specs.Prelude.{◌≡◌, ◌≤◌, ◌^◌, ◌<◌, length, SomeIff};
ghost use Rattle.c_tokens.specs.Pieces.{are_digits, is_space, is_digit, is_nondigit, is_word_byte, digit_value, written, begins_name, begins_digit, begins_number, run_size};
ghost use Rattle.c_tokens.specs.Directives.{is_blank};
ghost use Rattle.c_scan.specs.Runs.{goes_on, is_sign, is_exponent};

/// White space (C11 6.4p3).
pub(crate) fn is_space(c: u8) -> bool
    ensures { result ≡ is_space c }
{
    c == b' ' || (9 <= c && c <= 13)
}

/// A digit (6.4.2.1).
pub(crate) fn is_digit(c: u8) -> bool
    ensures { result ≡ is_digit c }
{
    b'0' <= c && c <= b'9'
}

/// A letter or an underscore (6.4.2.1).
pub(crate) fn is_nondigit(c: u8) -> bool
    ensures { result ≡ is_nondigit c }
{
    (b'A' <= c && c <= b'Z') || (b'a' <= c && c <= b'z') || c == b'_'
}

/// A letter, an underscore or a digit.
pub(crate) fn is_word_byte(c: u8) -> bool
    ensures { result ≡ is_word_byte c }
{
    is_nondigit(c) || is_digit(c)
}

/// The value of a digit of any base up to 16; 16 where it is none.
pub(crate) fn digit_value(c: u8) -> u8
    ensures value { result ≡ digit_value c }
    ensures bound { result ≤ 16 }
{
    if b'0' <= c && c <= b'9' {
        c - b'0'
    } else if b'a' <= c && c <= b'f' {
        c - b'a' + 10
    } else if b'A' <= c && c <= b'F' {
        c - b'A' + 10
    } else {
        16
    }
}

/// Whether a name begins here.
pub fn begins_name(text: &[u8]) -> bool
    ensures { result ≡ begins_name text.now }
{
    match text {
        [c, ..] => is_nondigit(*c),
        [] => false,
    }
}

/// Whether a digit stands at the front.
pub fn begins_digit(text: &[u8]) -> bool
    ensures { result ≡ begins_digit text.now }
{
    match text {
        [c, ..] => is_digit(*c),
        [] => false,
    }
}

/// A digit, or a dot and a digit (6.4.8).
pub fn begins_number(text: &[u8]) -> bool
    ensures { result ≡ begins_number text.now }
{
    match text {
        [c, rest @ ..] => is_digit(*c) || (*c == b'.' && begins_digit(rest)),
        [] => false,
    }
}

/// What a run of bytes is made of.
#[derive(Clone, Copy)]
pub enum Run {
    /// Letters, digits and underscores.
    Word,
    /// The same, dots, and a sign after an exponent's letter (6.4.8).
    Number,
    /// All but newlines.
    Line,
    /// White space.
    Space,
    /// White space other than newlines, and bytes 0.
    Blanks,
    /// All but white space.
    Spelling,
    /// Digits of a base of at most 16.
    Digits { base: u8 },
}

/// Whether a run goes on with a byte after another.
fn goes_on(run: Run, before: u8, c: u8) -> bool
    ensures { result ≡ goes_on run before c }
{
    match run {
        Run::Word => is_word_byte(c),
        Run::Number => is_word_byte(c) || c == b'.' || (is_sign(c) && is_exponent(before)),
        Run::Line => c != b'\n',
        Run::Space => is_space(c),
        Run::Blanks => (is_space(c) || c == 0) && c != b'\n',
        Run::Spelling => !is_space(c),
        Run::Digits { base } => digit_value(c) < base,
    }
}

/// `+` or `-`.
fn is_sign(c: u8) -> bool
    ensures { result ≡ is_sign c }
{
    c == b'+' || c == b'-'
}

/// The letter of an exponent.
fn is_exponent(c: u8) -> bool
    ensures { result ≡ is_exponent c }
{
    c == b'E' || c == b'e' || c == b'P' || c == b'p'
}

/// How far a run goes, after a byte before it.
pub fn run_size(run: Run, before: u8, bytes: &[u8]) -> usize
    ensures size { result ≡ run_size (goes_on run) before bytes.now }
    ensures within { result ≤ length bytes.now }
{
    let mut last = before;
    for (i, c) in bytes.iter().enumerate() {
        if !goes_on(run, last, *c) {
            return i;
        }
        last = *c;
    }
    bytes.len()
}

/// Whether each byte is white space.
pub fn is_blank(bytes: &[u8]) -> bool
    ensures { result ≡ is_blank bytes.now }
{
    bytes.iter().all(|c| is_space(*c))
}

/// The number that digits write, where it is below 2 ^ 64.
pub(crate) fn written(base: u8, digits: &[u8]) -> Option<u64>
    requires { 1 ≤ base }
    ensures { SomeIff result (written base digits.now < 2 ^ 64) (written base digits.now) }
{
    let mut value: u64 = 0;
    for c in digits {
        let Some(scaled) = value.checked_mul(u64::from(base)) else {
            return None;
        };
        let Some(next) = scaled.checked_add(u64::from(digit_value(*c))) else {
            return None;
        };
        value = next;
    }
    Some(value)
}

/// Whether each byte is a digit of the base.
pub(crate) fn are_digits(base: u8, text: &[u8]) -> bool
    ensures { result ≡ are_digits base text.now }
{
    text.iter().all(|c| digit_value(*c) < base)
}

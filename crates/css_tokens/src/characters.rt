//! The classes of code points (CSS Syntax 3, section 4.2), on the bytes of their UTF-8.

ghost use Rattle.std.specs.Prelude.{◌≡◌, drop, take};
ghost use Rattle.css_model.specs.Text.Characters as classes;

pub(crate) fn is_newline(c: u8) -> bool
    ensures { result ≡ classes.is_newline c }
{
    c == b'\n' || c == b'\r' || c == b'\x0C'
}

pub(crate) fn is_white(c: u8) -> bool
    ensures { result ≡ classes.is_white c }
{
    c == b' ' || c == b'\t' || is_newline(c)
}

/// An ident-start code point, or a byte of one.
pub(crate) fn is_start(c: u8) -> bool
    ensures { result ≡ classes.is_start c }
{
    c.is_ascii_alphabetic() || c == b'_' || c >= 128 || c == 0
}

/// An ident code point, or a byte of one.
pub(crate) fn is_name(c: u8) -> bool
    ensures { result ≡ classes.is_name c }
{
    is_start(c) || c.is_ascii_digit() || c == b'-'
}

pub(crate) fn is_sign(c: u8) -> bool
    ensures { result ≡ classes.is_sign c }
{
    c == b':'
        || c == b';'
        || c == b','
        || c == b'['
        || c == b']'
        || c == b'('
        || c == b')'
        || c == b'{'
        || c == b'}'
}

fn is_non_printable(c: u8) -> bool
    ensures { result ≡ classes.is_non_printable c }
{
    (c >= 1 && c <= 8) || c == 11 || (c >= 14 && c <= 31) || c == 127
}

/// A code point that no url holds.
pub(crate) fn is_bad_in_url(c: u8) -> bool
    ensures { result ≡ classes.is_bad_in_url c }
{
    c == b'"' || c == b'\'' || c == b'(' || is_non_printable(c)
}

pub(crate) fn is_plus_or_minus(c: u8) -> bool
    ensures { result ≡ classes.is_plus_or_minus c }
{
    c == b'+' || c == b'-'
}

/// Whether the text begins with this byte.
pub(crate) fn begins(b: u8, text: &[u8]) -> bool
    ensures { result ≡ classes.begins b text.now }
{
    match text {
        [] => false,
        [c, ..] => *c == b,
    }
}

/// Whether the text begins with a newline.
pub(crate) fn begins_newline(text: &[u8]) -> bool
    ensures { result ≡ classes.first_passes classes.is_newline text.now }
{
    match text {
        [] => false,
        [c, ..] => is_newline(*c),
    }
}

/// The text after its first `n` bytes.
pub(crate) fn after(text: &[u8], n: usize) -> &[u8]
    ensures { result.now ≡ drop n text.now }
{
    if n <= text.len() { &text[n..] } else { &[] }
}

/// The first `n` bytes of the text, or all where there are fewer.
pub(crate) fn before(text: &[u8], n: usize) -> &[u8]
    ensures { result.now ≡ take n text.now }
{
    if n <= text.len() { &text[..n] } else { text }
}

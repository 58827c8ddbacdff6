//! The units of tokens, by how many bytes each takes: 0 where none begins.

ghost use Rattle.std.specs.Prelude.{◌≡◌, ◌≤◌, ◌+◌, ◌^◌, length};
ghost use Rattle.css_model.specs.Text.Units as units;

use crate::characters::{begins, is_bad_in_url, is_name, is_newline, is_start, is_white};

/// The most bytes that a unit takes: a backslash, six hex digits and CR LF.
pub(crate) const LONGEST_UNIT: usize = 9;

/// A white space, where CR LF is one (CSS Syntax 3, section 3.3).
#[inline]
pub(crate) fn white_unit(text: &[u8]) -> usize
    ensures value { result ≡ units.white_unit text.now }
    ensures small { result ≤ 2 }
{
    match text {
        [] => 0,
        [c, rest @ ..] => {
            if is_white(*c) {
                if *c == b'\r' && begins(b'\n', rest) {
                    2
                } else {
                    1
                }
            } else {
                0
            }
        }
    }
}

/// Up to `most` hex digits, and then at most one white space.
fn hex_rest(most: usize, text: &[u8]) -> usize
    ensures value { result ≡ units.hex_rest most text.now }
    ensures small { result ≤ most + 2 }
{
    let mut i = 0;
    'digits: while i < most && i < text.len() && text[i].is_ascii_hexdigit() {
        i += 1;
    }
    i + white_unit(&text[i..])
}

/// An escape, without its backslash, which comes before the text (sections 4.3.7 and 4.3.8).
pub(crate) fn escape_after(text: &[u8]) -> usize
    ensures value { result ≡ units.escape_after text.now }
    ensures small { result ≤ 9 }
{
    match text {
        [] => 2,
        [c, rest @ ..] => {
            if is_newline(*c) {
                0
            } else if c.is_ascii_hexdigit() {
                2 + hex_rest(5, rest)
            } else {
                2
            }
        }
    }
}

/// An ident code point or an escape.
#[inline]
pub(crate) fn name_unit(text: &[u8]) -> usize
    ensures value { result ≡ units.name_unit text.now }
    ensures small { result ≤ 9 }
{
    match text {
        [] => 0,
        [c, rest @ ..] => {
            if is_name(*c) {
                1
            } else if *c == b'\\' {
                escape_after(rest)
            } else {
                0
            }
        }
    }
}

/// An ident-start code point or an escape.
#[inline]
fn start_unit(text: &[u8]) -> usize
    ensures value { result ≡ units.start_unit text.now }
    ensures small { result ≤ 9 }
{
    match text {
        [] => 0,
        [c, rest @ ..] => {
            if is_start(*c) {
                1
            } else if *c == b'\\' {
                escape_after(rest)
            } else {
                0
            }
        }
    }
}

/// The start of an ident sequence (section 4.3.9).
pub(crate) fn name_start(text: &[u8]) -> usize
    ensures value { result ≡ units.name_start text.now }
    ensures small { result ≤ 10 }
{
    match text {
        [] => 0,
        [c, rest @ ..] => {
            if *c != b'-' {
                start_unit(text)
            } else if begins(b'-', rest) {
                2
            } else {
                one_and(start_unit(rest))
            }
        }
    }
}

/// One byte and the `n` after it, where there are any.
pub(crate) fn one_and(n: usize) -> usize
    requires { n ≤ 2 ^ 40 }
    ensures { result ≡ units.one_and n }
{
    if n == 0 { 0 } else { 1 + n }
}

/// A backslash inside a string, which comes before the text, with what it escapes.
fn string_escape(text: &[u8]) -> usize
    ensures value { result ≡ units.string_escape text.now }
    ensures small { result ≤ 9 }
{
    match text {
        [] => 2,
        [c, ..] => {
            if is_newline(*c) {
                1 + white_unit(text)
            } else {
                escape_after(text)
            }
        }
    }
}

/// A unit inside a string of this quote (section 4.3.5).
pub(crate) fn string_unit(quote: u8, text: &[u8]) -> usize
    ensures value { result ≡ units.string_unit quote text.now }
    ensures small { result ≤ 9 }
{
    match text {
        [] => 0,
        [c, rest @ ..] => {
            if *c == quote || is_newline(*c) {
                0
            } else if *c == b'\\' {
                string_escape(rest)
            } else {
                1
            }
        }
    }
}

/// A unit inside a url (section 4.3.6), without white space.
pub(crate) fn url_unit(text: &[u8]) -> usize
    ensures value { result ≡ units.url_unit text.now }
    ensures small { result ≤ 9 }
{
    match text {
        [] => 0,
        [c, rest @ ..] => {
            if is_white(*c) || *c == b')' || is_bad_in_url(*c) {
                0
            } else if *c == b'\\' {
                escape_after(rest)
            } else {
                1
            }
        }
    }
}

#[inline]
pub(crate) fn digit_unit(text: &[u8]) -> usize
    ensures value { result ≡ units.digit_unit text.now }
    ensures small { result ≤ 1 }
{
    match text {
        [] => 0,
        [c, ..] => { if c.is_ascii_digit() { 1 } else { 0 } }
    }
}

//! What names and strings say once their escapes are read (CSS Syntax 3, section 4.3.7).

ghost use Rattle.std.specs.Prelude.{◌≡◌, ◌≤◌, ◌+◌, ◌++◌, ◌<◌, ◌^◌, ◌*◌, List, ℕ, length, encode_utf8, false, true, MatchOption, IfSome, IfOk, OnOk};
ghost use Rattle.std.specs.Char.{digit_value, is_ascii_hexdigit};
ghost use Rattle.std.specs.List.{list_all};
ghost use Rattle.std.specs.Str.{IsAscii, chars, str_eq_ignore_ascii_case};
ghost use Rattle.css_model.specs.Text.Source.{IsWithin, text_at};
ghost use Rattle.css_model.specs.Text.Names as escapes;
ghost use Rattle.css_tokens.specs.Said as said;
ghost use Rattle.css_tokens.specs.Said.{said_text, IsWide};

use crate::characters::is_newline;
use crate::units::{escape_after, white_unit};
use css_model::{Piece, Text};
use std::alloc::{AllocError, Global};

/// What a byte or an escape says.
#[derive(Clone, Copy)]
pub(crate) enum Said {
    /// Nothing, as a newline after a backslash inside a string.
    Nothing,
    /// A byte, which may be a part of a code point.
    Byte(u8),
    /// A code point that is not ASCII.
    Code(char),
}

fn hex_digit(c: u8) -> u32
    requires { is_ascii_hexdigit c ≡ true }
    ensures value { result ≡ digit_value c }
    ensures small { result < 16 }
{
    char::from(c).to_digit(16).unwrap_or(0)
}

/// The number that up to six hex digits at the start of the text write.
fn hex_value(text: &[u8]) -> u32
    ensures value { result ≡ escapes.hex_value 6 0 text.now }
    ensures small { result < 2 ^ 24 }
{
    let mut i = 0;
    let mut value = 0;
    'digits: while i < 6 && i < text.len() && text[i].is_ascii_hexdigit() {
        value = value * 16 + hex_digit(text[i]);
        i += 1;
    }
    value
}

/// The code point of an escape of this number.
fn escaped_code(value: u32) -> char
    ensures { result ≡ escapes.escaped_code value }
{
    match char::from_u32(value) {
        Some(code) if code != '\0' => code,
        _ => '\u{FFFD}',
    }
}

/// What a byte says by itself: 0 is read as U+FFFD.
fn byte_said(c: u8) -> Said
    ensures text { said_text result ≡ escapes.byte_text c }
    ensures wide { IsWide result }
{
    if c == 0 {
        Said::Code('\u{FFFD}')
    } else {
        Said::Byte(c)
    }
}

/// What an escape of this number says.
fn escape_said(value: u32) -> Said
    ensures text { said_text result ≡ encode_utf8 (escapes.escaped_code value) }
    ensures wide { IsWide result }
{
    let code = escaped_code(value);
    if code.is_ascii() {
        Said::Byte(code as u8)
    } else {
        Said::Code(code)
    }
}

/// What a backslash before the text says.
fn after_backslash(text: &[u8]) -> Said
    ensures text { said_text result ≡ escapes.after_backslash_text text.now }
    ensures wide { IsWide result }
{
    match text {
        [] => Said::Code('\u{FFFD}'),
        [c, ..] => {
            if is_newline(*c) {
                Said::Nothing
            } else if c.is_ascii_hexdigit() {
                escape_said(hex_value(text))
            } else {
                byte_said(*c)
            }
        }
    }
}

/// How many bytes a backslash before the text takes, with what belongs to it.
fn after_backslash_len(text: &[u8]) -> usize
    ensures value { result ≡ escapes.after_backslash_len text.now }
    ensures small { result ≤ 9 }
    ensures some { 1 ≤ result }
{
    match text {
        [] => 1,
        [c, ..] => {
            if is_newline(*c) {
                1 + white_unit(text)
            } else {
                escape_after(text)
            }
        }
    }
}

/// What the first byte or escape of a text says, and how many bytes it takes.
fn first_said(first: u8, rest: &[u8]) -> (Said, usize)
    ensures text { said_text result.0 ≡ escapes.first_text first rest.now }
    ensures wide { IsWide result.0 }
    ensures len { result.1 ≡ escapes.first_len first rest.now }
    ensures small { result.1 ≤ 9 }
    ensures some { 1 ≤ result.1 }
{
    if first == b'\\' {
        (after_backslash(rest), after_backslash_len(rest))
    } else {
        (byte_said(first), 1)
    }
}

/// What is left of an ASCII word after what was said, where the word goes on with that, without ASCII case.
fn spelled<'a>(said: Said, word: &'a [u8]) -> Option<&'a [u8]>
    requires wide { IsWide said }
    requires ascii { IsAscii word.now }
    ensures ascii { IfSome result (λ left. IsAscii left.now) }
    ensures cases { MatchOption result ((more : List ℕ) → str_eq_ignore_ascii_case (said_text said ++ more) word.now ≡ false)
        (λ left. (more : List ℕ) → str_eq_ignore_ascii_case (said_text said ++ more) word.now ≡ str_eq_ignore_ascii_case more left.now) }
{
    match said {
        Said::Nothing => Some(word),
        Said::Byte(c) => match word {
            [] => None,
            [letter, left @ ..] => {
                if c.to_ascii_lowercase() == letter.to_ascii_lowercase() {
                    Some(left)
                } else {
                    None
                }
            }
        },
        Said::Code(_) => None,
    }
}

/// Whether a name is this word of ASCII without ASCII case, once its escapes are read.
pub fn is_named(name: &[u8], word: &[u8]) -> bool
    requires { IsAscii word.now }
    ensures { result ≡ escapes.is_named word.now name.now }
{
    let mut left = word;
    let mut i = 0;
    'names: while i < name.len() {
        let (said, len) = first_said(name[i], &name[i + 1..]);
        match spelled(said, left) {
            Some(more) => left = more,
            None => return false,
        }
        i += len;
    }
    left.is_empty()
}

/// Whether a name is `url` without ASCII case.
pub(crate) fn is_url(name: &[u8]) -> bool
    ensures { result ≡ escapes.is_url name.now }
{
    is_named(name, b"url")
}

fn push_said(out: &mut Vec<u8>, said: Said) -> Result<(), AllocError>
    ensures { OnOk result (out.new.items ≡ out.old.items ++ said_text said) }
{
    match said {
        Said::Nothing => {}
        Said::Byte(c) => out.push(c)?,
        Said::Code(code) => {
            let mut bytes = [0; 4];
            out.extend_from_slice(code.encode_utf8(&mut bytes).as_bytes())?;
        }
    }
    Ok(())
}

/// The bytes of a name or of the inside of a string, with its code point in place of each escape.
fn unescaped(alloc: Global, text: &[u8]) -> Result<Vec<u8>, AllocError>
    ensures { IfOk result (λ v. v.items ≡ escapes.unescaped text.now) }
{
    let mut out = Vec::with_capacity(alloc, text.len())?;
    let mut i = 0;
    'names: while i < text.len() {
        let (said, len) = first_said(text[i], &text[i + 1..]);
        push_said(&mut out, said)?;
        i += len;
    }
    Ok(out)
}

fn codes_of(alloc: Global, text: &str) -> Result<Vec<char>, AllocError>
    ensures { IfOk result (λ v. v.items ≡ chars text.now) }
{
    text.chars().collect(alloc)
}

/// Whether a byte says itself as a code point, wherever it is in a name or a string.
fn says_itself(c: u8) -> bool
    ensures { result ≡ said.says_itself c }
{
    c != 0 && c != b'\\' && c < 128
}

/// Whether all bytes of a text say themselves.
fn all_say_themselves(text: &[u8]) -> bool
    ensures { result ≡ list_all said.says_itself text.now }
{
    text.iter().all(|c| says_itself(*c))
}

/// Returns `true` only if a name or the inside of a string says its own bytes, as code points. Most do.
#[tactic(auto, using(crate::proofs::PlainNames::plain_decoded))]
fn is_plain(text: &[u8]) -> bool
    ensures { result ≡ true → escapes.decoded text.now ≡ text.now }
{
    all_say_themselves(text)
}

/// The bytes as code points.
fn codes_of_bytes(alloc: Global, text: &[u8]) -> Result<Vec<char>, AllocError>
    ensures { IfOk result (λ v. v.items ≡ text.now) }
{
    let mut codes = Vec::with_capacity(alloc, text.len())?;
    for c in text {
        codes.push(char::from(*c))?;
    }
    Ok(codes)
}

/// The code points of a name or of the inside of a string with escapes, or with other bytes than ASCII.
fn decoded_codes(alloc: Global, text: &[u8]) -> Result<Vec<char>, AllocError>
    ensures { IfOk result (λ v. v.items ≡ escapes.decoded text.now) }
{
    let bytes = unescaped(alloc, text)?;
    let text = String::from_utf8_lossy(alloc, bytes.as_slice())?;
    codes_of(alloc, text.as_str())
}

/// The code points of a name or of the inside of a string, once its escapes are read (CSS Syntax 3, section 4.3.7). The
/// piece of the source is a name, or lies between the quotes of a string. Bytes that are not UTF-8 read as U+FFFD.
/// `AllocError` where memory runs out.
pub fn decode(alloc: Global, source: &[u8], name: &Piece) -> Result<Text, AllocError>
    requires { IsWithin source.now name.now }
    ensures { IfOk result (λ t. t ≡ escapes.decoded (text_at source.now name.now)) }
{
    let text = name.text(source);
    let codes = if is_plain(text) {
        codes_of_bytes(alloc, text)?
    } else {
        decoded_codes(alloc, text)?
    };
    Ok(Text::new(codes))
}

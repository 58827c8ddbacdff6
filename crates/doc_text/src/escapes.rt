//! Names and values: their UTF-8, with `%` and two hex digits for each byte that is not plain.

ghost use Rattle.std.specs.Prelude.{◌≡◌, ◌++◌, ◌<◌, IfOk, OnOk, string_bytes};
ghost use Rattle.std.specs.List.{flat_map};
ghost use Rattle.std.specs.Str.{chars, encode_utf8_all};
ghost use Rattle.doc_text.specs.DocText.{escaped, escaped_byte, hex_digit, is_plain};
ghost use Rattle.doc_text.specs.Elements.{nibble, unescaped, unescaped_text};

use css_model::Text;
use std::alloc::{AllocError, Global};

/// Appends a text as it is written in a line.
pub(crate) fn push_escaped(out: &mut Vec<u8>, alloc: Global, text: &Text) -> Result<(), AllocError>
    ensures { OnOk result (out.new.items ≡ out.old.items ++ escaped text.now) }
{
    let bytes = utf8(alloc, text.codes())?;
    push_bytes(out, bytes.as_bytes())
}

/// A text in UTF-8.
fn utf8(alloc: Global, text: &[char]) -> Result<String, AllocError>
    ensures { IfOk result (λ bytes. string_bytes bytes ≡ encode_utf8_all text.now) }
{
    let mut bytes = String::with_capacity(alloc, text.len())?;
    for c in text {
        bytes.push(*c)?;
    }
    Ok(bytes)
}

/// Appends bytes as they are written in a line.
fn push_bytes(out: &mut Vec<u8>, bytes: &[u8]) -> Result<(), AllocError>
    ensures { OnOk result (out.new.items ≡ out.old.items ++ flat_map escaped_byte bytes.now) }
{
    for byte in bytes {
        push_byte(out, *byte)?;
    }
    Ok(())
}

/// Appends a byte as it is written in a line.
fn push_byte(out: &mut Vec<u8>, byte: u8) -> Result<(), AllocError>
    ensures { OnOk result (out.new.items ≡ out.old.items ++ escaped_byte byte) }
{
    if is_plain(byte) {
        out.push(byte)?;
        return Ok(());
    }
    out.push(b'%')?;
    out.push(hex_digit(byte / 16))?;
    out.push(hex_digit(byte % 16))?;
    Ok(())
}

/// Whether a byte is written as it is: an ASCII letter or digit, `_` or `-`.
fn is_plain(byte: u8) -> bool
    ensures { result ≡ is_plain byte }
{
    byte.is_ascii_alphanumeric() || byte == b'_' || byte == b'-'
}

/// The upper-case hex digit of a number.
fn hex_digit(number: u8) -> u8
    requires { number < 16 }
    ensures { result ≡ hex_digit number }
{
    if number < 10 {
        b'0' + number
    } else {
        b'A' + (number - 10)
    }
}

/// The text that bytes of a line write, whether or not they are spelled as they should be.
pub(crate) fn unescaped_text(alloc: Global, bytes: &[u8]) -> Result<Text, AllocError>
    ensures { IfOk result (λ text. text ≡ unescaped_text bytes.now) }
{
    let bytes = unescaped(alloc, bytes)?;
    let text = String::from_utf8_lossy(alloc, bytes.as_slice())?;
    let codes = codes_of(alloc, text.as_str())?;
    Ok(Text::new(codes))
}

fn codes_of(alloc: Global, text: &str) -> Result<Vec<char>, AllocError>
    ensures { IfOk result (λ codes. codes.items ≡ chars text.now) }
{
    text.chars().collect(alloc)
}

/// The bytes that a spelling writes: one in place of each `%` and the two bytes after it.
fn unescaped(alloc: Global, bytes: &[u8]) -> Result<Vec<u8>, AllocError>
    ensures { IfOk result (λ out. out.items ≡ unescaped bytes.now) }
{
    let mut out = Vec::new(alloc);
    let mut rest = bytes;
    while let [c, a, b, behind @ ..] = rest {
        if *c == b'%' {
            out.push(nibble(*a) * 16 + nibble(*b))?;
            rest = behind;
        } else {
            out.push(*c)?;
            rest = &rest[1..];
        }
    }
    out.extend_from_slice(rest)?;
    Ok(out)
}

/// The value of a hex digit, and 0 of any other byte.
fn nibble(byte: u8) -> u8
    ensures value { result ≡ nibble byte }
    ensures small { result < 16 }
{
    match byte {
        b'0'..=b'9' => byte - b'0',
        b'A'..=b'F' => byte - b'A' + 10,
        _ => 0,
    }
}

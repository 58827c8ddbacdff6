//! One line of a document.

ghost use Rattle.std.specs.Prelude.{◌≡◌, ◌≢◌, ◌++◌, ◌<◌, ◌^◌, ◌↔◌, ℕ, Bool, IsTrue, IfOk, OnOk, MatchOption, decimal};
ghost use Rattle.css_model.specs.declared.example.RunLine.{RunLine};
ghost use Rattle.doc_text.specs.DocText.{line_text, mark_field};
ghost use Rattle.std.specs.Cmp.Lexicographic.{slice_cmp};
ghost use Rattle.std.specs.Ordering.{is_lt, nat_cmp};
ghost use Rattle.css_model.specs.Documents.Document.{IsText};
ghost use Rattle.doc_text.specs.Elements.{AreTexts, IsLine, are_features, ascend, ascend_behind, have_names};

use crate::cuts::next_field;
use crate::element::{element, push_more};
use crate::escapes::{push_escaped, unescaped_text};
use css_model::{Features, RunLine, Text};
use itoa::Buffer;
use std::alloc::{AllocError, Global};
use std::cmp::Ordering;
use std::str;

/// The flags are nine bits.
const FLAG_LIMIT: u16 = 1 << 9;

/// Appends a line, without its end.
pub(crate) fn push_line(
    out: &mut Vec<u8>,
    alloc: Global,
    marked: bool,
    line: &RunLine,
) -> Result<(), AllocError>
    ensures { OnOk result (out.new.items ≡ out.old.items ++ line_text marked line.now) }
{
    push_number(out, line.depth)?;
    out.push(b' ')?;
    push_number(out, line.count)?;
    out.push(b' ')?;
    out.extend_from_slice(mark_field(marked))?;
    out.push(b' ')?;
    push_escaped(out, alloc, &line.element.kind)?;
    push_more(out, alloc, &line.element)
}

/// Appends a number in decimal digits.
fn push_number(out: &mut Vec<u8>, number: u32) -> Result<(), AllocError>
    ensures { OnOk result (out.new.items ≡ out.old.items ++ decimal number) }
{
    let mut buffer = Buffer::new();
    out.extend_from_slice(buffer.format(number).as_bytes())
}

fn mark_field(marked: bool) -> &'static [u8]
    ensures { result.now ≡ mark_field marked }
{
    if marked { b"*" } else { b"-" }
}

/// Whether a line is marked, and what it says, where these bytes are its text.
pub(crate) fn read_line(alloc: Global, bytes: &[u8]) -> Result<Option<(bool, RunLine)>, AllocError>
    ensures { IfOk result (λ found. MatchOption found
        ((marked : Bool) (l : RunLine) → IsLine l → bytes.now ≢ line_text marked l)
        (λ f. IsLine f.1 × (bytes.now ≡ line_text f.0 f.1))) }
{
    let (marked, line) = likely(alloc, bytes)?;
    if !is_line(&line) {
        return Ok(None);
    }
    let text = text_of(alloc, marked, &line)?;
    if text.as_slice() == bytes {
        Ok(Some((marked, line)))
    } else {
        Ok(None)
    }
}

/// The text of a line.
fn text_of(alloc: Global, marked: bool, line: &RunLine) -> Result<Vec<u8>, AllocError>
    ensures { IfOk result (λ text. text.items ≡ line_text marked line.now) }
{
    let mut text = Vec::new(alloc);
    push_line(&mut text, alloc, marked, line)?;
    Ok(text)
}

/// The line whose text these bytes are, and whether it is marked. Some line, where they are the text of none.
fn likely(alloc: Global, bytes: &[u8]) -> Result<(bool, RunLine), AllocError>
    ensures { IfOk result (λ found. (marked : Bool) (l : RunLine) → IsLine l → bytes.now ≡ line_text marked l
        → (found.0 ≡ marked) × (found.1 ≡ l)) }
{
    let (depth, rest) = next_field(bytes);
    let (count, rest) = next_field(rest);
    let (mark, rest) = next_field(rest);
    let (kind, rest) = next_field(rest);
    let kind = unescaped_text(alloc, kind)?;
    let element = element(alloc, kind, rest)?;
    let line = RunLine {
        depth: number(depth),
        count: number(count),
        element,
    };
    Ok((mark == mark_field(true), line))
}

/// The number that these bytes write; 0 where they write none.
fn number(bytes: &[u8]) -> u32
    ensures { (n : ℕ) → n < 2 ^ 32 → bytes.now ≡ decimal n → result ≡ n }
{
    match str::from_utf8(bytes) {
        Ok(text) => match text.parse::<u32>() {
            Ok(number) => number,
            Err(_) => 0,
        },
        Err(_) => 0,
    }
}

/// Whether a line may be in a document, of whatever depth. It has at least one element, its flags are among the nine,
/// neither its type nor the name of an attribute is empty, and these names ascend.
fn is_line(line: &RunLine) -> bool
    ensures { IsTrue result ↔ IsLine line.now }
{
    see(&line.element.kind);
    see_texts(line.element.attrs.as_slice());
    see_numbers(line.depth, line.count);
    line.count > 0 && are_features(&line.element)
}

fn are_features(element: &Features) -> bool
    ensures { result ≡ are_features element.now }
{
    element.flags < FLAG_LIMIT
        && !element.kind.codes().is_empty()
        && have_names(element.attrs.as_slice())
        && ascend(element.attrs.as_slice())
}

/// Whether no name of an attribute is empty.
fn have_names(attributes: &[(Text, Text)]) -> bool
    ensures { result ≡ have_names attributes.now }
{
    attributes.iter().all(|(name, _)| !name.codes().is_empty())
}

/// Whether the names of attributes ascend.
fn ascend(attributes: &[(Text, Text)]) -> bool
    ensures { result ≡ ascend attributes.now }
{
    match attributes {
        [] => true,
        [(first, _), more @ ..] => ascend_behind(first, more),
    }
}

/// Whether the names of attributes ascend, all above a first name.
fn ascend_behind(first: &Text, attributes: &[(Text, Text)]) -> bool
    ensures { result ≡ ascend_behind first.now attributes.now }
{
    let mut last = first;
    let mut rest = attributes;
    while let [(name, _), more @ ..] = rest {
        if !is_below(last, name) {
            return false;
        }
        last = name;
        rest = more;
    }
    true
}

/// Whether a text is before another one, by code points.
fn is_below(x: &Text, y: &Text) -> bool
    ensures { result ≡ is_lt (slice_cmp nat_cmp x.now y.now) }
{
    x.cmp(y) == Ordering::Less
}

/// Shows that names and values are texts, by reading them.
fn see_texts(attributes: &[(Text, Text)])
    ensures { AreTexts attributes.now }
{
    let mut rest = attributes;
    while let [(name, value), more @ ..] = rest {
        see(name);
        see(value);
        rest = more;
    }
}

/// Shows that a text is one, by reading it.
fn see(text: &Text)
    ensures { IsText text.now }
{
    let _codes = text.codes();
}

/// Shows that two numbers have 32 bits, by reading them.
fn see_numbers(depth: u32, count: u32)
    ensures depth { depth < 2 ^ 32 }
    ensures count { count < 2 ^ 32 }
{}

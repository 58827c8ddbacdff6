//! The lines of a text, and the places of its bytes by line and column.

ghost use Rattle.std.specs.Prelude.{◌≡◌, ◌≤◌, nat_le, length, take, slice_range, IfOk};
ghost use Rattle.std.specs.List.{prefix_len};
ghost use Rattle.css_model.specs.Text.Characters.{begins, line_feed};
ghost use Rattle.std.specs.List.Sorted.{IsNonDecreasingBy};
ghost use Rattle.line_places.specs.Counts.{AreCounts};
ghost use Rattle.line_places.specs.Lines as spec;

use crate::counts::{code_points, counts_of, points_between};
use crate::place::Place;
use std::alloc::{AllocError, Global};

/// U+FEFF in UTF-8.
const BYTE_ORDER_MARK: &[u8] = b"\xEF\xBB\xBF";

/// Whether a text begins with a line feed.
fn begins_with_feed(text: &[u8]) -> bool
    ensures { result ≡ begins line_feed text.now }
{
    match text {
        [] => false,
        [first, ..] => *first == b'\n',
    }
}

/// Whether a line ends after this byte, before these others.
fn ends_line(byte: u8, others: &[u8]) -> bool
    ensures { result ≡ spec.ends_line byte others.now }
{
    byte == b'\n' || (byte == b'\r' && !begins_with_feed(others))
}

/// Where the first line of a text begins.
fn first_start(text: &[u8]) -> usize
    ensures { result ≡ spec.first_start text.now }
{
    if text.starts_with(BYTE_ORDER_MARK) {
        3
    } else {
        0
    }
}

/// The bytes of a text from one place to another one, as far as the text goes.
fn range(text: &[u8], from: usize, to: usize) -> &[u8]
    ensures { result.now ≡ slice_range text.now from to }
{
    let end = to.min(text.len());
    if from < end { &text[from..end] } else { b"" }
}

/// The place of a byte of a text by line and column. The byte is the one at `at`, counted from 0; `at` may be the end of
/// the text, and anything after it is taken as the end.
///
/// Lines and columns count from 1. A line ends after a line feed, and after a carriage return that no line feed follows.
/// A column counts code points (RFC 3629, section 3); a byte order mark at the start of the text is none. The text may
/// be no UTF-8.
///
/// It takes no memory, and a step for each byte before the place. [`Lines`] is for many places of one text.
pub fn place_in(text: &[u8], at: usize) -> Place
    ensures { result ≡ spec.place_of text.now at }
{
    let mut lines = 0;
    let mut start = first_start(text);
    for i in 0..at.min(text.len()) {
        if ends_line(text[i], &text[i + 1..]) {
            lines += 1;
            start = i + 1;
        }
    }
    Place {
        line: lines + 1,
        column: code_points(range(text, start, at)) + 1,
    }
}

/// Where the lines of a text begin, but for the first one.
fn starts_of(alloc: Global, text: &[u8]) -> Result<Vec<usize>, AllocError>
    ensures { IfOk result (λ starts. starts.items ≡ spec.starts_within (length text.now) 0 text.now) }
{
    let mut starts = Vec::new(alloc);
    for i in 0..text.len() {
        if ends_line(text[i], &text[i + 1..]) {
            starts.push(i + 1)?;
        }
    }
    Ok(starts)
}

/// How many of these starts are at a place or before it.
fn starts_up_to(starts: &[usize], at: usize) -> usize
    requires { IsNonDecreasingBy (λ start. start) starts.now }
    ensures count { result ≡ prefix_len (λ start. nat_le start at) starts.now }
    ensures few { result ≤ length starts.now }
{
    starts.partition_point(
        |start: &usize| -> bool
            ensures { result ≡ nat_le start.now at }
        { *start <= at },
    )
}

/// The last of so many starts, or the start of the first line.
fn last_start(first: usize, starts: &[usize], count: usize) -> usize
    requires { count ≤ length starts.now }
    ensures { result ≡ spec.last_of first (take count starts.now) }
{
    if count == 0 { first } else { starts[count - 1] }
}

/// A text with its lines, to find the lines and columns of many places in it.
#[derive(Drop)]
pub struct Lines<'a> {
    /// The text.
    pub text: &'a [u8],
    /// Where the lines after the first one begin.
    starts: Vec<usize>,
    /// How many code points begin before each 64th byte.
    counts: Vec<usize>,
    ghost starts_are: { starts.items ≡ spec.starts_within (length text.now) 0 text.now },
    ghost counts_are: { AreCounts text.now counts.items },
}

impl<'a> Lines<'a> {
    /// The lines of a text of any bytes. `AllocError` where memory is short.
    pub fn new(alloc: Global, text: &'a [u8]) -> Result<Lines<'a>, AllocError>
        ensures { IfOk result (λ lines. lines.text.now ≡ text.now) }
    {
        let starts = starts_of(alloc, text)?;
        let counts = counts_of(alloc, text)?;
        Ok(Lines {
            text,
            starts,
            counts,
        })
    }

    /// The place of a byte of the text by line and column, as [`place_in`] answers it. It takes no memory, and a search
    /// in the starts of the lines.
    pub fn place(&self, at: usize) -> Place
        ensures { result ≡ spec.place_of self.now.text.now at }
    {
        let count = starts_up_to(&self.starts, at);
        let start = last_start(first_start(self.text), &self.starts, count);
        Place {
            line: count + 1,
            column: points_between(self.text, &self.counts, start, at) + 1,
        }
    }
}

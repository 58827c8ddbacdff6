//! How many code points begin in a text, and before each 64th byte of it.

ghost use Rattle.std.specs.Prelude.{◌≡◌, ◌≤◌, length, take, slice_range, IfOk};
ghost use Rattle.line_places.specs.Counts.{AreCounts};
ghost use Rattle.line_places.specs.Lines as spec;

use std::alloc::{AllocError, Global};

/// Whether a code point begins with this byte.
fn begins_code_point(byte: u8) -> bool
    ensures { result ≡ spec.begins_code_point byte }
{
    byte < 0x80 || 0xBF < byte
}

/// How many code points begin in a text.
pub(crate) fn code_points(text: &[u8]) -> usize
    ensures count { result ≡ spec.code_points text.now }
    ensures few { result ≤ length text.now }
{
    let mut count = 0;
    for byte in text {
        if begins_code_point(*byte) {
            count += 1;
        }
    }
    count
}

/// How many code points begin before each 64th byte of a text.
pub(crate) fn counts_of(alloc: Global, text: &[u8]) -> Result<Vec<usize>, AllocError>
    ensures { IfOk result (λ counts. AreCounts text.now counts.items) }
{
    let blocks = text.len() / 64;
    let mut counts = Vec::with_capacity(alloc, blocks + 1)?;
    let mut total = 0;
    counts.push(0)?;
    for k in 0..blocks {
        total += code_points(&text[k * 64..k * 64 + 64]);
        counts.push(total)?;
    }
    Ok(counts)
}

/// How many code points begin before a place in a text.
fn points_before(text: &[u8], counts: &[usize], at: usize) -> usize
    requires counts { AreCounts text.now counts.now }
    requires inside { at ≤ length text.now }
    ensures { result ≡ spec.code_points (take at text.now) }
{
    let block = at / 64;
    counts[block] + code_points(&text[block * 64..at])
}

/// How many code points begin from one place to another one, as far as the text goes.
pub(crate) fn points_between(text: &[u8], counts: &[usize], from: usize, to: usize) -> usize
    requires { AreCounts text.now counts.now }
    ensures count { result ≡ spec.code_points (slice_range text.now from to) }
    ensures few { result ≤ length text.now }
{
    let end = to.min(text.len());
    if from < end {
        points_before(text, counts, end) - points_before(text, counts, from)
    } else {
        0
    }
}

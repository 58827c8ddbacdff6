//! What is inside strings (CSS Syntax 3, section 4.3.5).

ghost use Rattle.std.specs.Prelude.{◌≡◌, ◌≤◌, ◌<◌, ◌+◌, ℕ, length, slice_index};
ghost use Rattle.css_model.specs.Text.Runs.{run};
ghost use Rattle.css_model.specs.Text.Units as units;
ghost use Rattle.css_tokens.specs.Plain.{IsPlain};

use crate::units::string_unit;
use memchr::{memchr2, memchr3};

/// How many bytes come before the first quote, backslash or newline, or before the end.
fn plain_len(quote: u8, text: &[u8]) -> usize
    ensures plain { (k : ℕ) → k < result → IsPlain quote (slice_index text.now k) }
    ensures small { result ≤ length text.now }
{
    let end = memchr2(quote, b'\\', text).unwrap_or(text.len());
    memchr3(b'\n', b'\r', b'\x0C', &text[..end]).unwrap_or(end)
}

/// How many bytes of the text are inside a string of this quote. Where the text ends inside an escape, the byte that
/// lacks counts too.
pub(crate) fn string_len(quote: u8, text: &[u8]) -> usize
    ensures value { result ≡ run (units.string_unit quote) text.now }
    ensures small { result ≤ length text.now + 9 }
{
    let mut i = 0;
    'parts: while i < text.len() {
        let plain = plain_len(quote, &text[i..]);
        let at = i + plain;
        let n = string_unit(quote, &text[at..]);
        if n == 0 {
            return at;
        }
        i = at + n;
    }
    i
}

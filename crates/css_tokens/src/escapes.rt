//! Whether a text ends in an open escape: one of hex digits, to which a white space after it would belong
//! (CSS Syntax 3, section 4.3.7).

ghost use Rattle.std.specs.Prelude.{◌≡◌};
ghost use Rattle.css_model.specs.Text.Kept as kept;

use crate::characters::after;
use crate::units::escape_after;
use memchr::memchr;

/// At most six hex digits and nothing else.
fn is_open_hex(text: &[u8]) -> bool
    ensures { result ≡ kept.is_open_hex 6 text.now }
{
    let mut i = 0;
    'digits: while i < 6 && i < text.len() && text[i].is_ascii_hexdigit() {
        i += 1;
    }
    i == text.len()
}

/// What follows a backslash is all of an escape to which a white space would belong.
fn is_open_escape(text: &[u8]) -> bool
    ensures { result ≡ kept.is_open_escape text.now }
{
    match text {
        [] => false,
        [_, ..] => is_open_hex(text),
    }
}

/// Whether a text of bytes and escapes ends in an open escape. A white space after a token of such bytes would belong
/// to it (CSS Syntax 3, section 4.3.7).
pub fn ends_open(text: &[u8]) -> bool
    ensures { result ≡ kept.is_open text.now }
{
    let mut rest = text;
    'escapes: while let Some(at) = memchr(b'\\', rest) {
        rest = &rest[at + 1..];
        if is_open_escape(rest) {
            return true;
        }
        rest = after(rest, escape_after(rest).saturating_sub(1));
    }
    false
}

//! Rows of units, each as long as it goes.

ghost use Rattle.std.specs.Prelude.{◌≡◌, ◌≤◌, ◌+◌, length};
ghost use Rattle.css_model.specs.Text.Runs as runs;
ghost use Rattle.css_tokens.specs.UnitOf.{unit_of};

use crate::units::{digit_unit, name_unit, url_unit, white_unit};

/// A unit that tokens are made of.
#[derive(Clone, Copy)]
pub(crate) enum Unit {
    /// A white space.
    White,
    /// An ident code point or an escape.
    Name,
    /// A digit.
    Digit,
    /// What may be inside a url.
    Url,
}

/// How many bytes such a unit takes at the front of the text.
fn unit_len(unit: Unit, text: &[u8]) -> usize
    ensures value { result ≡ unit_of unit text.now }
    ensures small { result ≤ 9 }
{
    match unit {
        Unit::White => white_unit(text),
        Unit::Name => name_unit(text),
        Unit::Digit => digit_unit(text),
        Unit::Url => url_unit(text),
    }
}

/// How many bytes the longest row of such units takes. Where the text ends inside one, the bytes that lack count too.
pub(crate) fn run(unit: Unit, text: &[u8]) -> usize
    ensures value { result ≡ runs.run (unit_of unit) text.now }
    ensures small { result ≤ length text.now + 9 }
{
    let mut i = 0;
    'units: while i < text.len() {
        let n = unit_len(unit, &text[i..]);
        if n == 0 {
            return i;
        }
        i += n;
    }
    i
}

//! Numbers (CSS Syntax 3, section 4.3.12).

ghost use Rattle.std.specs.Prelude.{◌≡◌, ◌≤◌, ◌<◌, ◌+◌, ◌*◌, ◌^◌, length};
ghost use Rattle.css_model.specs.Text.Units as units;

use crate::characters::{after, is_plus_or_minus};
use crate::runs::{Unit, run};
use crate::units::one_and;

/// `.` and digits.
fn fraction(text: &[u8]) -> usize
    requires { length text.now < 2 ^ 32 }
    ensures value { result ≡ units.fraction text.now }
    ensures small { result ≤ length text.now + 10 }
{
    match text {
        [] => 0,
        [c, rest @ ..] => {
            if *c == b'.' {
                one_and(run(Unit::Digit, rest))
            } else {
                0
            }
        }
    }
}

/// Digits and a fraction, or either of them.
fn decimal(text: &[u8]) -> usize
    requires { length text.now < 2 ^ 32 }
    ensures value { result ≡ units.decimal text.now }
    ensures small { result ≤ 2 * length text.now + 20 }
{
    let whole = run(Unit::Digit, text);
    whole + fraction(after(text, whole))
}

/// Digits and a fraction, or either of them, with an optional sign.
pub(crate) fn signed_decimal(text: &[u8]) -> usize
    requires { length text.now < 2 ^ 32 }
    ensures value { result ≡ units.signed_decimal text.now }
    ensures small { result ≤ 2 * length text.now + 20 }
{
    match text {
        [] => 0,
        [c, rest @ ..] => {
            if is_plus_or_minus(*c) {
                one_and(decimal(rest))
            } else {
                decimal(text)
            }
        }
    }
}

fn signed_digits(text: &[u8]) -> usize
    requires { length text.now < 2 ^ 32 }
    ensures value { result ≡ units.signed_digits text.now }
    ensures small { result ≤ length text.now + 10 }
{
    match text {
        [] => 0,
        [c, rest @ ..] => {
            if is_plus_or_minus(*c) {
                one_and(run(Unit::Digit, rest))
            } else {
                run(Unit::Digit, text)
            }
        }
    }
}

/// `e` or `E`, and digits with an optional sign.
fn exponent(text: &[u8]) -> usize
    requires { length text.now < 2 ^ 32 }
    ensures value { result ≡ units.exponent text.now }
    ensures small { result ≤ length text.now + 11 }
{
    match text {
        [] => 0,
        [c, rest @ ..] => {
            if *c == b'e' || *c == b'E' {
                one_and(signed_digits(rest))
            } else {
                0
            }
        }
    }
}

/// The whole number, where `decimal_len` bytes of it come before its exponent.
pub(crate) fn number_len(text: &[u8], decimal_len: usize) -> usize
    requires decimal { decimal_len ≡ units.signed_decimal text.now }
    requires small { decimal_len ≤ 2 * length text.now + 20 }
    requires short { length text.now < 2 ^ 32 }
    ensures value { result ≡ units.number_len text.now }
    ensures small { result ≤ 3 * length text.now + 31 }
{
    decimal_len + exponent(after(text, decimal_len))
}

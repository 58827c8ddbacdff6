//! The An+B notation, from its text.

ghost use Rattle.std.specs.Prelude.{◌≡◌, ℕ, ◌+◌, ◌<◌, ◌≤◌, ◌↔◌, IsTrue, List, Ok, Err, Some, map, min, neg_ℤ, pos, take, drop, length, option_copied};
ghost use Rattle.std.specs.List.{AllPass, prefix_len};
ghost use Rattle.std.specs.Char.{is_ascii_digit, to_ascii_lowercase};
ghost use Rattle.css_model.specs.declared.position.AnB.{AnB};
ghost use Rattle.css_model.specs.Positions.Range.{IsInRange};
ghost use Rattle.nth_positions.specs.declared.notation.AnbFault.TheVariants.{NotAnB, OutOfRange};
ghost use Rattle.nth_positions.specs.Messages.{message};
ghost use Rattle.nth_positions.specs.Read.{Gives};
ghost use Rattle.css_model.specs.Positions.Notation.{IsNotation, value};
ghost use Rattle.css_model.specs.Positions.Reading.{past_close, past_blank, past_blanks, digits_of, past_digits, capped, signed, is_minus, past_sign, last_number, offset_of, step_size, numbers_of, past_word, alone, body_of};
ghost use Rattle.css_model.specs.Lists.{is_empty};

use css_model::AnB;
use std::fmt;
use thiserror::Error;

/// The greatest size of a step.
pub(crate) const MAX_STEP: u32 = 32;

/// The greatest size of an offset.
const MAX_OFFSET: u32 = 1000;

/// The cap: each number from it on counts as it, being out of range. Digits of any number fit.
const CAP: u32 = MAX_OFFSET + 1;

/// Why a text is read as no step and offset.
#[derive(Clone, Copy, Debug, PartialEq, Eq, Error)]
pub enum AnbFault {
    /// The text is not in the notation.
    NotAnB,
    /// The text is in the notation, with a step beyond 32 or an offset beyond 1,000 in size.
    OutOfRange,
}

impl fmt::Display for AnbFault {
    ghost output = { λ fault. Some (message fault) };

    fn fmt<W: fmt::Write>(&self, f: &mut fmt::Formatter<W>) -> fmt::Result {
        f.write_str(match self {
            AnbFault::NotAnB => "not of the form An+B, `odd` or `even`",
            AnbFault::OutOfRange => "the step is beyond 32 or the offset beyond 1000",
        })
    }
}

/// The step and the offset of an argument of `:nth-child()` or `:nth-last-child()` (Selectors 3, section 6.6.5.2). The
/// text has no parentheses: `odd`, `even`, an integer, or a step with an offset or without one, in bytes without
/// escapes. White space and comments may be at both ends and on both sides of the offset's sign. There may be any
/// number of digits.
///
/// | error | exactly when |
/// |---|---|
/// | `NotAnB` | the text is not of this form |
/// | `OutOfRange` | it is, and the step is beyond 32 or the offset beyond 1,000 in size |
pub fn read_anb(text: &[u8]) -> Result<AnB, AnbFault>
    ensures exact { Gives result (body_of (past_blanks text.now)) }
    ensures ok { (x : AnB) → (result ≡ Ok x) ↔ (IsNotation text.now x × IsInRange x) }
    ensures not_anb { (result ≡ Err NotAnB) ↔ ((x : AnB) → IsNotation text.now x → ⊥) }
    ensures out_of_range { (result ≡ Err OutOfRange) ↔ ((x : AnB) × IsNotation text.now x × (IsInRange x → ⊥)) }
{
    match read_body(after_blanks(text)) {
        None => Err(AnbFault::NotAnB),
        Some(x) if is_in_range(x) => Ok(x),
        Some(_) => Err(AnbFault::OutOfRange),
    }
}

/// A text has one step and offset at most.
pub fn notation_is_unambiguous()
    ensures { (text : List ℕ) (x y : AnB) → IsNotation text x → IsNotation text y → x ≡ y }
{}

/// Whether the step is at most 32 and the offset at most 1,000 in size.
fn is_in_range(x: AnB) -> bool
    ensures { IsTrue result ↔ IsInRange x }
{
    x.a.unsigned_abs() <= MAX_STEP && x.b.unsigned_abs() <= MAX_OFFSET
}

/// The step and offset of the body at the front, with only blanks after it. Numbers are capped.
#[tactic(auto, unfolding(css_model::specs::Positions::Reading::body_of))]
fn read_body(text: &[u8]) -> Option<AnB>
    ensures { result ≡ body_of text.now }
{
    if let Some(rest) = after_word(text, b"odd") {
        alone(AnB { a: 2, b: 1 }, rest)
    } else if let Some(rest) = after_word(text, b"even") {
        alone(AnB { a: 2, b: 0 }, rest)
    } else {
        read_numbers(text)
    }
}

/// `x`, where the text holds only blanks.
#[tactic(auto, unfolding(css_model::specs::Positions::Reading::alone))]
fn alone(x: AnB, text: &[u8]) -> Option<AnB>
    ensures { result ≡ alone x text.now }
{
    if after_blanks(text).is_empty() {
        Some(x)
    } else {
        None
    }
}

/// What follows the word at the front. The word is in lower case, and is found without ASCII case.
#[tactic(auto, unfolding(css_model::specs::Positions::Reading::past_word))]
fn after_word<'a>(text: &'a [u8], word: &[u8]) -> Option<&'a [u8]>
    requires { map to_ascii_lowercase word.now ≡ word.now }
    ensures { option_copied result ≡ past_word word.now text.now }
{
    let (front, rest) = text.split_at_checked(word.len())?;
    if front.eq_ignore_ascii_case(word) {
        Some(rest)
    } else {
        None
    }
}

/// An integer, or a step with an offset or without one, with only blanks after it.
#[tactic(auto, unfolding(css_model::specs::Positions::Reading::numbers_of))]
fn read_numbers(text: &[u8]) -> Option<AnB>
    ensures { result ≡ numbers_of text.now }
{
    let (negative, unsigned) = split_sign(text);
    let (digits, rest) = split_digits(unsigned);
    match rest {
        [b'n' | b'N', offset @ ..] => {
            let a = signed(negative, step_size(digits));
            let b = read_offset(offset)?;
            Some(AnB { a, b })
        }
        _ => {
            let b = read_last(negative, unsigned)?;
            Some(AnB { a: 0, b })
        }
    }
}

/// What follows the `n` of a step: an offset with its sign, or only blanks.
#[tactic(auto, unfolding(css_model::specs::Positions::Reading::offset_of))]
fn read_offset(text: &[u8]) -> Option<i32>
    ensures { result ≡ offset_of text.now }
{
    match after_blanks(text) {
        [] => Some(0),
        [b'+', rest @ ..] => read_last(false, after_blanks(rest)),
        [b'-', rest @ ..] => read_last(true, after_blanks(rest)),
        _ => None,
    }
}

/// The number at the front, with only blanks after it.
#[tactic(auto, unfolding(css_model::specs::Positions::Reading::last_number))]
fn read_last(negative: bool, text: &[u8]) -> Option<i32>
    ensures { result ≡ last_number negative text.now }
{
    let (digits, rest) = split_digits(text);
    if digits.is_empty() || !after_blanks(rest).is_empty() {
        None
    } else {
        Some(signed(negative, capped_value(digits)))
    }
}

/// The size of a step: the number before its `n`, and 1 where there is none.
fn step_size(digits: &[u8]) -> u32
    requires { AllPass is_ascii_digit digits.now }
    ensures exact { result ≡ step_size digits.now }
    ensures small { result ≤ 1001 }
{
    if digits.is_empty() {
        1
    } else {
        capped_value(digits)
    }
}

/// The number that digits write, or the cap where it is beyond that.
fn capped_value(digits: &[u8]) -> u32
    requires { AllPass is_ascii_digit digits.now }
    ensures exact { result ≡ capped (value digits.now) }
    ensures small { result ≤ 1001 }
{
    let mut number = 0;
    for digit in digits {
        number = (10 * number + u32::from(*digit - b'0')).min(CAP);
    }
    number
}

/// The number of a size after a sign.
fn signed(negative: bool, size: u32) -> i32
    requires { size ≤ 1001 }
    ensures { result ≡ signed negative size }
{
    if negative {
        -(size as i32)
    } else {
        size as i32
    }
}

/// Whether a `-` is at the front, and what follows the sign there, which may be missing.
fn split_sign(text: &[u8]) -> (bool, &[u8])
    ensures sign { result.0 ≡ is_minus text.now }
    ensures rest { result.1.now ≡ past_sign text.now }
{
    match text {
        [b'-', rest @ ..] => (true, rest),
        [b'+', rest @ ..] => (false, rest),
        _ => (false, text),
    }
}

/// The digits at the front, and what follows them.
fn split_digits(text: &[u8]) -> (&[u8], &[u8])
    ensures digits { result.0.now ≡ digits_of text.now }
    ensures each { AllPass is_ascii_digit result.0.now }
    ensures rest { result.1.now ≡ past_digits text.now }
{
    text.split_at(digit_count(text))
}

/// How many digits are at the front.
fn digit_count(text: &[u8]) -> usize
    ensures exact { result ≡ prefix_len is_ascii_digit text.now }
    ensures within { result ≤ length text.now }
{
    for (count, byte) in text.iter().enumerate() {
        if !byte.is_ascii_digit() {
            return count;
        }
    }
    text.len()
}

/// What follows the blanks at the front: white space and whole comments.
#[tactic(auto, unfolding(css_model::specs::Positions::Reading::past_blanks))]
fn after_blanks(text: &[u8]) -> &[u8]
    ensures { result.now ≡ past_blanks text.now }
{
    let mut rest = text;
    while let Some(next) = after_blank(rest) {
        rest = next;
    }
    rest
}

/// What follows one white space or one whole comment at the front.
fn after_blank(text: &[u8]) -> Option<&[u8]>
    ensures { option_copied result ≡ past_blank text.now }
{
    match text {
        [b' ' | b'\t' | b'\n' | b'\x0c' | b'\r', rest @ ..] => Some(rest),
        [b'/', b'*', inside @ ..] => after_close(inside),
        _ => None,
    }
}

/// What follows the first `*/`.
fn after_close(text: &[u8]) -> Option<&[u8]>
    ensures { option_copied result ≡ past_close text.now }
{
    let mut rest = text;
    while let [first, second, ..] = rest {
        if *first == b'*' && *second == b'/' {
            return Some(&rest[2..]);
        }
        rest = &rest[1..];
    }
    None
}

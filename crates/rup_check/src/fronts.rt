//! What is at the front of a text: bytes, numbers, literals.
ghost use Rattle.std.specs.Prelude.{◌≡◌, ◌≢◌, ◌+◌, ◌<◌, ◌≤◌, ◌^◌, ℕ, ◌∷◌, ◌++◌, List, length, slice_index, codes, decimal, IsTrue, MatchOption};
ghost use Rattle.cnf.specs.Lits.{is_below};
ghost use Rattle.rup_check.specs.Fronts.{IsFirst, NoDigits, NoLiteral, NoNumber, NoVariable};
ghost use Rattle.rup_check.specs.Reading.{max_vars};
ghost use Rattle.rup_check.specs.Text.{lit_text};

use cnf::Lit;
use itoa::Buffer;

/// What follows a front, or None where the text does not begin with it.
pub(crate) fn after<'a>(text: &'a [u8], front: &[u8]) -> Option<&'a [u8]>
    ensures { MatchOption result ((rest : List ℕ) → text.now ≡ front.now ++ rest → ⊥)
        (λ rest. text.now ≡ front.now ++ rest.now) }
{
    if text.len() < front.len() {
        return None;
    }
    let (begin, rest) = text.split_at(front.len());
    if begin == front { Some(rest) } else { None }
}

/// A number up to one, which a byte ends, and what follows the byte.
pub(crate) fn number(text: &[u8], end: u8, most: u32) -> Option<(u32, &[u8])>
    requires { end < 48 }
    ensures { MatchOption result (NoNumber end most text.now)
        (λ r. (r.0 ≤ most) × (text.now ≡ decimal r.0 ++ (end ∷ r.1.now))) }
{
    let place = match find(text, end) {
        None => return None,
        Some(place) => place,
    };
    let (digits, rest) = text.split_at(place);
    let number = match value(digits) {
        None => return None,
        Some(number) => number,
    };
    if number <= most {
        Some((number, &rest[1..]))
    } else {
        None
    }
}

/// The first place of a byte.
fn find(text: &[u8], byte: u8) -> Option<usize>
    ensures { MatchOption result ((k : ℕ) → k < length text.now → slice_index text.now k ≢ byte)
        (λ place. IsFirst text.now byte place) }
{
    for k in 0..text.len() {
        if text[k] == byte {
            return Some(k);
        }
    }
    None
}

/// The number whose decimal digits these are.
fn value(digits: &[u8]) -> Option<u32>
    ensures { MatchOption result (NoDigits digits.now)
        (λ n. (n < 2 ^ 32) × (digits.now ≡ decimal n)) }
{
    let text = match std::str::from_utf8(digits) {
        Err(_) => return None,
        Ok(text) => text,
    };
    let number = match text.parse::<u32>() {
        Err(_) => return None,
        Ok(number) => number,
    };
    let mut buffer = Buffer::new();
    if buffer.format(number).as_bytes() == digits {
        Some(number)
    } else {
        None
    }
}

/// The number of a variable before a space, and what follows the space. The text counts variables from 1, the answer
/// from 0.
fn variable(text: &[u8], vars: u32) -> Option<(u32, &[u8])>
    requires { vars ≤ max_vars }
    ensures { MatchOption result (NoVariable vars text.now)
        (λ r. (r.0 < vars) × (text.now ≡ decimal (r.0 + 1) ++ (codes " " ++ r.1.now))) }
{
    let (number, rest) = match number(text, b' ', vars) {
        None => return None,
        Some(found) => found,
    };
    if number == 0 {
        return None;
    }
    Some((number - 1, rest))
}

/// A literal of so many variables before a space, and what follows the space.
pub(crate) fn literal(text: &[u8], vars: u32) -> Option<(Lit, &[u8])>
    requires { vars ≤ max_vars }
    ensures { MatchOption result (NoLiteral vars text.now) (λ r. IsTrue (is_below vars r.0)
        × (text.now ≡ lit_text r.0 ++ (codes " " ++ r.1.now))) }
{
    match after(text, b"-") {
        Some(digits) => match variable(digits, vars) {
            None => None,
            Some((var, rest)) => Some((Lit(2 * var + 1), rest)),
        },
        None => match variable(text, vars) {
            None => None,
            Some((var, rest)) => Some((Lit(2 * var), rest)),
        },
    }
}

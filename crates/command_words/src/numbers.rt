//! Numbers in words.

ghost use Rattle.std.specs.Prelude.{◌≡◌, ◌<◌, ◌≤◌, ◌^◌, ◌↔◌, ℕ, decimal, IsTrue};
ghost use Rattle.command_words.specs.Forms.{count_up_to, number_up_to};

use itoa::Buffer;

/// The number that a word writes; 0 where it writes none.
fn likely_number(word: &str) -> u32
    ensures { (n : ℕ) → n < 2 ^ 32 → word.now ≡ decimal n → result ≡ n }
{
    match word.parse::<u32>() {
        Ok(number) => number,
        Err(_) => 0,
    }
}

/// Whether a word is this number in decimal digits.
fn is_number(word: &[u8], number: u32) -> bool
    ensures { IsTrue result ↔ (word.now ≡ decimal number) }
{
    let mut buffer = Buffer::new();
    word == buffer.format(number).as_bytes()
}

/// Whether a word is this number in decimal digits, and the number is at most `most`.
fn writes(word: &str, number: u32, most: u32) -> bool
    ensures { IsTrue result ↔ ((number ≤ most) × (word.now ≡ decimal number)) }
{
    number <= most && is_number(word.as_bytes(), number)
}

/// The number that a word writes in decimal digits without a sign or a leading zero, at most `most`.
pub(crate) fn number_up_to(most: u32, word: &str) -> Option<u32>
    ensures { result ≡ number_up_to most word.now }
{
    let number = likely_number(word);
    if writes(word, number, most) {
        Some(number)
    } else {
        None
    }
}

/// The same of a number from 1 on.
pub(crate) fn count_up_to(most: u32, word: &str) -> Option<u32>
    ensures { result ≡ count_up_to most word.now }
{
    if word == "0" {
        None
    } else {
        number_up_to(most, word)
    }
}

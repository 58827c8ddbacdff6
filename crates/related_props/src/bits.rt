//! The bits of families in masks.

ghost use Rattle.std.specs.Prelude.{◌≡◌, ◌<◌};
ghost use Rattle.related_props.specs.Masks.{bit_of};

/// The bit of a family of this text.
pub(crate) fn bit_of(text: &[char]) -> u64
    ensures exact { result ≡ bit_of text.now }
    ensures small { result < 64 }
{
    match text {
        [] => 0,
        [a] => u64::from(*a) % 64,
        [a, b, rest @ ..] => {
            (u64::from(*a) + 4 * u64::from(*b) + 20 * (rest.len() as u64 % 64)) % 64
        }
    }
}

/// The bit of a family of this text of ASCII.
pub(crate) fn bit_of_word(word: &[u8]) -> u64
    ensures exact { result ≡ bit_of word.now }
    ensures small { result < 64 }
{
    match word {
        [] => 0,
        [a] => u64::from(*a) % 64,
        [a, b, rest @ ..] => {
            (u64::from(*a) + 4 * u64::from(*b) + 20 * (rest.len() as u64 % 64)) % 64
        }
    }
}

//! Texts cut at a byte.

ghost use Rattle.std.specs.Prelude.{◌≡◌, ◌≢◌, ◌++◌, ◌∷◌, ◌<◌, [], false, length, MatchOption};
ghost use Rattle.css_model.specs.Text.Characters.{space};
ghost use Rattle.doc_text.specs.Lines.{fields_of, holds};

use memchr::memchr;

/// The text before the first byte of this kind and the text after it, where there is one.
pub(crate) fn cut(text: &[u8], at: u8) -> Option<(&[u8], &[u8])>
    ensures { MatchOption result
        (holds at text.now ≡ false)
        (λ parts. (text.now ≡ parts.0.now ++ at ∷ parts.1.now) × (holds at parts.0.now ≡ false)) }
{
    match memchr(at, text) {
        Some(i) => Some((&text[..i], &text[i + 1..])),
        None => None,
    }
}

/// The first field of a text that is not empty, and the fields after it.
pub(crate) fn next_field(text: &[u8]) -> (&[u8], &[u8])
    ensures fields { text.now ≢ [] → fields_of text.now ≡ result.0.now ∷ fields_of result.1.now }
    ensures shorter { text.now ≢ [] → length result.1.now < length text.now }
{
    match cut(text, b' ') {
        Some(parts) => parts,
        None => (text, &[]),
    }
}

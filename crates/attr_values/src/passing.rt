//! Whether a value passes tests as they are asked (Selectors 3, sections 6.3.1 and 6.3.2).

ghost use Rattle.std.specs.Prelude.{◌≡◌, ◌≢◌, ℕ, List, [], ◌∷◌, ◌++◌, not, IfOk, string_bytes};
ghost use Rattle.std.specs.List.{list_all};
ghost use Rattle.std.specs.Str.{encode_utf8_all};
ghost use Rattle.css_model.specs.Documents.Attribute.{
  begins_with_word,
  has_part,
  has_word_later,
  passes,
  starts_white,
};
ghost use Rattle.css_model.specs.Lists.{begins_with};
ghost use Rattle.css_model.specs.Text.Characters.{is_white};
ghost use Rattle.attr_values.specs.Asked.{passes_as_asked};

use css_model::{AttrTest, Op};
use memchr::memmem;
use std::alloc::{AllocError, Global};

/// Whether a value passes each test as it is asked (Selectors 3, sections 6.3.1, 6.3.2 and 6.6.7). A test with the flag
/// true has to hold, one with the flag false must not hold. The value is a list of code points. The names in the
/// tests do not count. `AllocError` where memory runs out.
pub fn passes_as_asked(
    alloc: Global,
    tests: &[(AttrTest, bool)],
    value: &[char],
) -> Result<bool, AllocError>
    ensures { IfOk result (λ passed. passed ≡ passes_as_asked tests.now value.now) }
{
    let bytes = utf8(alloc, value)?;
    for (test, wanted) in tests {
        let passed = passes(alloc, test, value, bytes.as_str())?;
        if passed != *wanted {
            return Ok(false);
        }
    }
    Ok(true)
}

/// Whether a value passes a test. `bytes` is the value in UTF-8.
fn passes(alloc: Global, test: &AttrTest, value: &[char], bytes: &str) -> Result<bool, AllocError>
    requires { bytes.now ≡ encode_utf8_all value.now }
    ensures { IfOk result (λ passed. passed ≡ passes test.now.op test.now.value value.now) }
{
    let v = test.value.codes();
    match test.op {
        Op::Present => Ok(true),
        Op::Equal => Ok(value == v),
        Op::Word => Ok(passes_word(value, v)),
        Op::Dash => Ok(value == v || begins_with_dash(value, v)),
        Op::Prefix => Ok(passes_prefix(value, v)),
        Op::Suffix => Ok(passes_suffix(value, v)),
        Op::Part => passes_part(alloc, value, bytes, v),
    }
}

/// Whether a value begins with another one that is not empty.
fn passes_prefix(value: &[char], v: &[char]) -> bool
    ensures { result ≡ passes Op.Prefix v.now value.now }
{
    !v.is_empty() && value.starts_with(v)
}

/// Whether a value ends with another one that is not empty.
fn passes_suffix(value: &[char], v: &[char]) -> bool
    ensures { result ≡ passes Op.Suffix v.now value.now }
{
    !v.is_empty() && value.ends_with(v)
}

/// Whether a value contains another one that is not empty. `bytes` is the value in UTF-8.
fn passes_part(alloc: Global, value: &[char], bytes: &str, v: &[char]) -> Result<bool, AllocError>
    requires { bytes.now ≡ encode_utf8_all value.now }
    ensures { IfOk result (λ passed. passed ≡ passes Op.Part v.now value.now) }
{
    if v.is_empty() {
        return Ok(false);
    }
    let part = utf8(alloc, v)?;
    Ok(has_part(bytes, part.as_str()))
}

/// Whether a text has a part. In UTF-8 no character begins inside another one, so the bytes decide it.
fn has_part(bytes: &str, part: &str) -> bool
    ensures { (text v : List ℕ) → v ≢ [] → bytes.now ≡ encode_utf8_all text
        → part.now ≡ encode_utf8_all v → result ≡ has_part text v }
{
    memmem::find(bytes.as_bytes(), part.as_bytes()).is_some()
}

/// The bytes of a text in UTF-8.
fn utf8(alloc: Global, text: &[char]) -> Result<String, AllocError>
    ensures { IfOk result (λ bytes. string_bytes bytes ≡ encode_utf8_all text.now) }
{
    let mut bytes = String::with_capacity(alloc, text.len())?;
    for c in text {
        bytes.push(*c)?;
    }
    Ok(bytes)
}

/// Whether a value has a word among those that white space separates.
fn passes_word(value: &[char], word: &[char]) -> bool
    ensures { result ≡ passes Op.Word word.now value.now }
{
    !word.is_empty()
        && is_without_white(word)
        && (begins_with_word(value, word) || has_word_later(value, word))
}

/// Whether a text holds no white space.
fn is_without_white(text: &[char]) -> bool
    ensures { result ≡ list_all (λ c. not (is_white c)) text.now }
{
    text.iter().all(|c| !is_white(*c))
}

/// Whether a code point is white space (Selectors 3, section 4).
fn is_white(c: char) -> bool
    ensures { result ≡ is_white c }
{
    // Most code points are greater than the space: one comparison decides.
    c <= ' ' && matches!(c, ' ' | '\t' | '\n' | '\r' | '\u{c}')
}

/// Whether a text has a word after white space.
fn has_word_later(text: &[char], word: &[char]) -> bool
    ensures { result ≡ has_word_later text.now word.now }
{
    let mut rest = text;
    while let [c, behind @ ..] = rest {
        if is_white(*c) && begins_with_word(behind, word) {
            return true;
        }
        rest = behind;
    }
    false
}

/// Whether a text begins with a word that white space or the end follows.
fn begins_with_word(text: &[char], word: &[char]) -> bool
    ensures { result ≡ begins_with_word text.now word.now }
{
    match text.strip_prefix(word) {
        Some(rest) => starts_white(rest),
        None => false,
    }
}

/// Whether a text is empty or begins with white space.
fn starts_white(text: &[char]) -> bool
    ensures { result ≡ starts_white text.now }
{
    match text {
        [] => true,
        [c, ..] => is_white(*c),
    }
}

/// Whether a text begins with another one and `-`.
fn begins_with_dash(text: &[char], v: &[char]) -> bool
    ensures { result ≡ begins_with text.now (v.now ++ 0x2D ∷ []) }
{
    match text.strip_prefix(v) {
        Some(rest) => starts_with_dash(rest),
        None => false,
    }
}

/// Whether a text begins with `-`.
fn starts_with_dash(text: &[char]) -> bool
    ensures { result ≡ begins_with text.now (0x2D ∷ []) }
{
    match text {
        [] => false,
        [c, ..] => *c == '-',
    }
}

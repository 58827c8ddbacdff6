//! Tests of attribute values (Selectors 3, section 6.3).

ghost use Rattle.std.specs.Prelude.{◌≡◌, ◌++◌, ◌∷◌, [], not, map, Some, None, MatchOption};
ghost use Rattle.std.specs.List.{list_all};
ghost use Rattle.css_model.specs.Documents.Attribute.{
  begins_with_word,
  ends_with,
  has_part,
  has_word_later,
  passes,
  starts_white,
};
ghost use Rattle.css_model.specs.Documents.Document.{value_among};
ghost use Rattle.css_model.specs.Lists.{begins_with};
ghost use Rattle.css_model.specs.Text.Characters.{is_white};

use css_model::{AttrTest, Op, Text};

/// The value of the attribute of a name, if there is one.
pub(crate) fn value_of<'a>(attrs: &'a [(Text, Text)], name: &[char]) -> Option<&'a Text>
    ensures { let value = value_among (map (λ a. record { name = a.0; value = a.1 }) attrs.now) name.now in
        MatchOption result (value ≡ None) (λ v. value ≡ Some v.now) }
{
    let mut left = attrs;
    while let [(other, value), behind @ ..] = left {
        if other.codes() == name {
            return Some(value);
        }
        left = behind;
    }
    None
}

/// Whether a value passes a test.
pub(crate) fn passes(test: &AttrTest, value: &[char]) -> bool
    ensures { result ≡ passes test.now.op test.now.value value.now }
{
    let v = test.value.codes();
    match test.op {
        Op::Present => true,
        Op::Equal => value == v,
        Op::Word => has_word(value, v),
        Op::Dash => value == v || begins_with_dash(value, v),
        Op::Prefix => !v.is_empty() && begins_with(value, v),
        Op::Suffix => !v.is_empty() && ends_with(value, v),
        Op::Part => !v.is_empty() && has_part(value, v),
    }
}

/// Whether a text begins with another one.
fn begins_with(text: &[char], v: &[char]) -> bool
    ensures { result ≡ begins_with text.now v.now }
{
    let mut text_left = text;
    let mut v_left = v;
    while let [d, v_behind @ ..] = v_left {
        match text_left {
            [c, behind @ ..] if c == d => text_left = behind,
            _ => return false,
        }
        v_left = v_behind;
    }
    true
}

/// Whether a text ends with another one.
fn ends_with(text: &[char], v: &[char]) -> bool
    ensures { result ≡ ends_with text.now v.now }
{
    let mut left = text;
    while let [_, behind @ ..] = left {
        if left == v {
            return true;
        }
        left = behind;
    }
    v.is_empty()
}

/// Whether a text has a part.
fn has_part(text: &[char], v: &[char]) -> bool
    ensures { result ≡ has_part text.now v.now }
{
    let mut left = text;
    while let [_, behind @ ..] = left {
        if begins_with(left, v) {
            return true;
        }
        left = behind;
    }
    v.is_empty()
}

/// Whether a text begins with another one and `-`.
fn begins_with_dash(text: &[char], v: &[char]) -> bool
    ensures { result ≡ begins_with text.now (v.now ++ 0x2D ∷ []) }
{
    let mut text_left = text;
    let mut v_left = v;
    while let [d, v_behind @ ..] = v_left {
        match text_left {
            [c, behind @ ..] if c == d => text_left = behind,
            _ => return false,
        }
        v_left = v_behind;
    }
    starts_with_dash(text_left)
}

/// Whether a text begins with `-`.
fn starts_with_dash(text: &[char]) -> bool
    ensures { result ≡ begins_with text.now (0x2D ∷ []) }
{
    match text {
        [] => false,
        [c, ..] => *c == '-',
    }
}

/// Whether a text has a word among those that white space separates.
fn has_word(text: &[char], word: &[char]) -> bool
    ensures { result ≡ passes Op.Word word.now text.now }
{
    !word.is_empty()
        && is_without_white(word)
        && (begins_with_word(text, word) || has_word_later(text, word))
}

/// Whether a text holds no white space.
fn is_without_white(text: &[char]) -> bool
    ensures { result ≡ list_all (λ c. not (is_white c)) text.now }
{
    text.iter().all(|c| !is_white(*c))
}

/// Whether a code point is white space (Selectors 3, section 4).
fn is_white(c: char) -> bool
    ensures { result ≡ is_white c }
{
    // Most code points are greater than the space: one comparison decides.
    c <= ' ' && matches!(c, ' ' | '\t' | '\n' | '\r' | '\u{c}')
}

/// Whether a text has a word after white space.
fn has_word_later(text: &[char], word: &[char]) -> bool
    ensures { result ≡ has_word_later text.now word.now }
{
    let mut left = text;
    while let [c, behind @ ..] = left {
        if is_white(*c) && begins_with_word(behind, word) {
            return true;
        }
        left = behind;
    }
    false
}

/// Whether a text begins with a word that white space or the end follows.
fn begins_with_word(text: &[char], word: &[char]) -> bool
    ensures { result ≡ begins_with_word text.now word.now }
{
    let mut text_left = text;
    let mut word_left = word;
    while let [d, word_behind @ ..] = word_left {
        match text_left {
            [c, behind @ ..] if c == d => text_left = behind,
            _ => return false,
        }
        word_left = word_behind;
    }
    starts_white(text_left)
}

/// Whether a text is empty or begins with white space.
fn starts_white(text: &[char]) -> bool
    ensures { result ≡ starts_white text.now }
{
    match text {
        [] => true,
        [c, ..] => is_white(*c),
    }
}

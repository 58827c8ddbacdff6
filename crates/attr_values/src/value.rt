//! The value that is tried.

ghost use Rattle.std.specs.Prelude.{◌≡◌, ℕ, List, [], ◌∷◌, ◌++◌, IfOk, OnOk, MatchOption};
ghost use Rattle.attr_values.specs.Asked.{asked, is_dash, is_part, is_word};
ghost use Rattle.attr_values.specs.Separators.{HasUnused, IsFirstUnused, free_space};
ghost use Rattle.attr_values.specs.Solved.{IsCandidate};
ghost use Rattle.attr_values.specs.Value.{
  first_passing,
  followed,
  kept_with,
  more_words,
  once,
  spaced,
  start_text,
  words_then,
  without_equal,
  built,
};

use crate::asked::{first_asked, is_any_asked, is_of_words, longest_asked};
use crate::passing::passes_as_asked;
use crate::separators::{first_unused, free_space};
use crate::start::{Start, longest_start};
use css_model::{AttrTest, Op, Text};
use std::alloc::{AllocError, Global};

/// The value that is tried for tests. It is the first of these that applies:
///
/// - the value of the first Equal that is asked for;
/// - where each test is one of a word or of presence: the words that are asked for, each once, with a space between
///   each two;
/// - the value of the first Dash that is asked for and passes;
/// - what is built of all that is asked.
pub(crate) fn candidate(alloc: Global, tests: &[(AttrTest, bool)]) -> Result<Text, AllocError>
    requires { HasUnused tests.now }
    ensures { IfOk result (λ v. IsCandidate v tests.now) }
{
    match first_asked(tests, Op::Equal) {
        Some(v) => v.copy(),
        None => without_equal(alloc, tests),
    }
}

/// The value that is tried where no Equal is asked for.
fn without_equal(alloc: Global, tests: &[(AttrTest, bool)]) -> Result<Text, AllocError>
    requires { HasUnused tests.now }
    ensures { IfOk result (λ v. (f : ℕ) × IsFirstUnused f tests.now
        × (v ≡ without_equal f (free_space tests.now) tests.now)) }
{
    let words = words(alloc, tests)?;
    if is_of_words(tests) {
        let codes = spaced(alloc, words.as_slice())?;
        return Ok(Text::new(codes));
    }
    match passing_dash(alloc, tests)? {
        Some(v) => {
            let codes = Vec::from_slice(alloc, v)?;
            Ok(Text::new(codes))
        }
        None => {
            let codes = built(alloc, tests, words.as_slice())?;
            Ok(Text::new(codes))
        }
    }
}

/// The value of the first Dash that is asked for and passes. It is the longest of those that are asked for: a value
/// that passes is each of them or begins with it.
fn passing_dash<'a>(
    alloc: Global,
    tests: &'a [(AttrTest, bool)],
) -> Result<Option<&'a [char]>, AllocError>
    ensures { IfOk result (λ found. MatchOption found
        ((other : List ℕ) → first_passing tests.now (asked is_dash tests.now) other ≡ other)
        (λ v. (other : List ℕ) → first_passing tests.now (asked is_dash tests.now) other ≡ v.now)) }
{
    let longest = longest_asked(tests, Op::Dash);
    if is_any_asked(tests, Op::Dash) && passes_as_asked(alloc, tests, longest)? {
        Ok(Some(longest))
    } else {
        Ok(None)
    }
}

/// The words that are asked for, each once.
fn words(alloc: Global, tests: &[(AttrTest, bool)]) -> Result<Vec<Text>, AllocError>
    ensures { IfOk result (λ words. words.items ≡ once (asked is_word tests.now)) }
{
    let mut kept = Vec::new(alloc);
    for (test, wanted) in tests {
        if *wanted && test.op == Op::Word {
            keep(&mut kept, &test.value)?;
        }
    }
    Ok(kept)
}

/// Keeps a word, unless it is there.
fn keep(kept: &mut Vec<Text>, word: &Text) -> Result<(), AllocError>
    ensures { OnOk result (kept.new.items ≡ kept_with kept.old.items word.now) }
{
    if kept.contains(word) {
        return Ok(());
    }
    let copy = word.copy()?;
    kept.push(copy)?;
    Ok(())
}

/// Words with one space between each two.
fn spaced(alloc: Global, words: &[Text]) -> Result<Vec<char>, AllocError>
    ensures { IfOk result (λ v. v.items ≡ spaced words.now) }
{
    let mut out = Vec::new(alloc);
    match words {
        [] => Ok(out),
        [first, more @ ..] => {
            out.extend_from_slice(first.codes())?;
            push_more(&mut out, more)?;
            Ok(out)
        }
    }
}

/// Appends words, and a space before each.
fn push_more(out: &mut Vec<char>, words: &[Text]) -> Result<(), AllocError>
    ensures { OnOk result (out.new.items ≡ out.old.items ++ more_words words.now) }
{
    for word in words {
        out.push(' ')?;
        out.extend_from_slice(word.codes())?;
    }
    Ok(())
}

/// All that is asked for, with separators between its pieces.
fn built(alloc: Global, tests: &[(AttrTest, bool)], words: &[Text]) -> Result<Vec<char>, AllocError>
    requires words { words.now ≡ once (asked is_word tests.now) }
    requires unused { HasUnused tests.now }
    ensures { IfOk result (λ v. (f : ℕ) × IsFirstUnused f tests.now
        × (v.items ≡ built f (free_space tests.now) tests.now)) }
{
    match first_unused(alloc, tests)? {
        Some(f) => built_with(alloc, tests, f, words),
        None => unreachable!(),
    }
}

/// All that is asked for, with the separator `f` between its pieces.
fn built_with(
    alloc: Global,
    tests: &[(AttrTest, bool)],
    f: char,
    words: &[Text],
) -> Result<Vec<char>, AllocError>
    requires { words.now ≡ once (asked is_word tests.now) }
    ensures { IfOk result (λ v. v.items ≡ built f (free_space tests.now) tests.now) }
{
    let mut out = Vec::new(alloc);
    push_start(&mut out, longest_start(tests))?;
    out.push(f)?;
    push_parts(&mut out, f, tests)?;
    push_words(&mut out, f, tests, words)?;
    out.extend_from_slice(longest_asked(tests, Op::Suffix))?;
    Ok(out)
}

/// Appends what a value has to begin with.
fn push_start(out: &mut Vec<char>, start: Start<'_>) -> Result<(), AllocError>
    ensures { OnOk result (out.new.items ≡ out.old.items ++ start_text start.entry.value.now start.entry.dash) }
{
    out.extend_from_slice(start.value)?;
    if start.dash {
        out.push('-')?;
    }
    Ok(())
}

/// Appends the parts that are asked for, and a separator after each.
fn push_parts(out: &mut Vec<char>, f: char, tests: &[(AttrTest, bool)]) -> Result<(), AllocError>
    ensures { OnOk result (out.new.items ≡ out.old.items ++ followed f (asked is_part tests.now) []) }
{
    for (test, wanted) in tests {
        if *wanted && test.op == Op::Part {
            push_then(out, test.value.codes(), f)?;
        }
    }
    Ok(())
}

/// Appends the words between white spaces; nothing where there is no word.
fn push_words(
    out: &mut Vec<char>,
    f: char,
    tests: &[(AttrTest, bool)],
    words: &[Text],
) -> Result<(), AllocError>
    ensures { OnOk result (out.new.items
        ≡ out.old.items ++ words_then f (free_space tests.now) words.now []) }
{
    if words.is_empty() {
        return Ok(());
    }
    let w = free_space(tests);
    out.push(w)?;
    for word in words {
        push_then(out, word.codes(), w)?;
    }
    out.push(f)?;
    Ok(())
}

/// Appends a text, and a code point after it.
fn push_then(out: &mut Vec<char>, text: &[char], c: char) -> Result<(), AllocError>
    ensures { OnOk result (out.new.items ≡ out.old.items ++ (text.now ++ c ∷ [])) }
{
    out.extend_from_slice(text)?;
    out.push(c)?;
    Ok(())
}

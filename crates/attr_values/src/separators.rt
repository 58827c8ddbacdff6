//! What keeps the pieces of a value apart: a code point that no test names, and a white space.

ghost use Rattle.std.specs.Prelude.{◌≡◌, ◌≤◌, ◌+◌, ◌-◌, ◌==◌, ◌||◌, false, ℕ, IfOk, OnOk, MatchOption, slice_index_or};
ghost use Rattle.std.specs.List.{list_all};
ghost use Rattle.attr_values.specs.Separators.{
  holds,
  HasUnused,
  IsFirstUnused,
  first_separator,
  AreMarks,
  AllMarkedBelow,
  IsFirstUnmarked,
  white_spaces,
  is_taken,
  spaces_taken,
  free_space,
};

use crate::asked::is_any_asked;
use css_model::{AttrTest, Op};
use std::alloc::{AllocError, Global};

/// The first code point that may keep pieces apart.
const FIRST_SEPARATOR: u32 = 'a' as u32;

/// How many code points there are.
const CODE_POINTS: u32 = char::MAX as u32 + 1;

/// The least code point from `a` on that is in the value of no test, if there is one.
pub(crate) fn first_unused(
    alloc: Global,
    tests: &[(AttrTest, bool)],
) -> Result<Option<char>, AllocError>
    ensures { IfOk result (λ unused. MatchOption unused
        (HasUnused tests.now → ⊥)
        (λ f. IsFirstUnused f tests.now)) }
{
    let marks = marks(alloc, tests)?;
    Ok(first_unmarked(marks.as_slice()))
}

/// Marks the code points from `a` on that are in the value of some test.
fn marks(alloc: Global, tests: &[(AttrTest, bool)]) -> Result<Vec<bool>, AllocError>
    ensures { IfOk result (λ marks. AreMarks marks.items tests.now) }
{
    let mut marks = Vec::new(alloc);
    for (test, _) in tests {
        mark_all(&mut marks, test.value.codes())?;
    }
    Ok(marks)
}

/// Marks the code points of a text.
fn mark_all(marks: &mut Vec<bool>, text: &[char]) -> Result<(), AllocError>
    ensures { OnOk result ((k : ℕ) → slice_index_or marks.new.items k false
        ≡ (slice_index_or marks.old.items k false || holds (first_separator + k) text.now)) }
{
    for c in text {
        mark(marks, *c)?;
    }
    Ok(())
}

/// Marks a code point; nothing where it is below `a`.
fn mark(marks: &mut Vec<bool>, c: char) -> Result<(), AllocError>
    ensures { OnOk result ((k : ℕ) → slice_index_or marks.new.items k false
        ≡ (slice_index_or marks.old.items k false || (c == first_separator + k))) }
{
    let code = c as u32;
    if code < FIRST_SEPARATOR {
        return Ok(());
    }
    let place = (code - FIRST_SEPARATOR) as usize;
    if marks.len() <= place {
        marks.resize(place + 1, false)?;
    }
    marks[place] = true;
    Ok(())
}

/// The least code point from `a` on that is not marked.
fn first_unmarked(marks: &[bool]) -> Option<char>
    ensures { MatchOption result (AllMarkedBelow 0x110000 marks.now) (λ f. IsFirstUnmarked f marks.now) }
{
    for code in FIRST_SEPARATOR..CODE_POINTS {
        if let Some(c) = char::from_u32(code) {
            if !is_marked(marks, code) {
                return Some(c);
            }
        }
    }
    None
}

/// Whether a code point from `a` on is marked.
fn is_marked(marks: &[bool], code: u32) -> bool
    requires { first_separator ≤ code }
    ensures { result ≡ slice_index_or marks.now (code - first_separator) false }
{
    let place = (code - FIRST_SEPARATOR) as usize;
    place < marks.len() && marks[place]
}

/// Whether a Word is asked to hold, no Equal is, and each white space is taken.
pub(crate) fn spaces_taken(tests: &[(AttrTest, bool)]) -> bool
    ensures { result ≡ spaces_taken tests.now }
{
    is_any_asked(tests, Op::Word) && !is_any_asked(tests, Op::Equal) && all_taken(tests)
}

/// Whether each white space is taken.
fn all_taken(tests: &[(AttrTest, bool)]) -> bool
    ensures { result ≡ list_all (λ c. is_taken c tests.now) white_spaces }
{
    is_taken(' ', tests)
        && is_taken('\t', tests)
        && is_taken('\n', tests)
        && is_taken('\u{c}', tests)
        && is_taken('\r', tests)
}

/// Whether a code point is in the value of a Part that is asked not to hold.
fn is_taken(c: char, tests: &[(AttrTest, bool)]) -> bool
    ensures { result ≡ is_taken c tests.now }
{
    for (test, wanted) in tests {
        if !*wanted && test.op == Op::Part && test.value.codes().contains(&c) {
            return true;
        }
    }
    false
}

/// The first white space that is not taken; a space where all are.
pub(crate) fn free_space(tests: &[(AttrTest, bool)]) -> char
    ensures { result ≡ free_space tests.now }
{
    if !is_taken(' ', tests) {
        ' '
    } else if !is_taken('\t', tests) {
        '\t'
    } else if !is_taken('\n', tests) {
        '\n'
    } else if !is_taken('\u{c}', tests) {
        '\u{c}'
    } else if !is_taken('\r', tests) {
        '\r'
    } else {
        ' '
    }
}

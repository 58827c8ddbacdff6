//! The values of the tests of an operator that are asked to hold.

ghost use Rattle.std.specs.Prelude.{◌≡◌, Some, None, MatchOption};
ghost use Rattle.std.specs.List.{list_all};
ghost use Rattle.attr_values.specs.Asked.{asked, is_asked, is_op, is_word_or_present, some_of};
ghost use Rattle.attr_values.specs.Value.{head_of, longer, longest};

use css_model::{AttrTest, Op, Text};

/// Whether some test is asked to hold.
pub(crate) fn is_asked(tests: &[(AttrTest, bool)]) -> bool
    ensures { result ≡ is_asked tests.now }
{
    tests.iter().any(|(_, wanted)| *wanted)
}

/// Whether some test of an operator is asked to hold.
pub(crate) fn is_any_asked(tests: &[(AttrTest, bool)], op: Op) -> bool
    ensures { result ≡ some_of (asked (is_op op) tests.now) }
{
    for (test, wanted) in tests {
        if *wanted && is_op(op, test.op) {
            return true;
        }
    }
    false
}

/// The value of the first test of an operator that is asked to hold, if there is one.
pub(crate) fn first_asked(tests: &[(AttrTest, bool)], op: Op) -> Option<&Text>
    ensures { MatchOption result (head_of (asked (is_op op) tests.now) ≡ None)
        (λ v. head_of (asked (is_op op) tests.now) ≡ Some v.now) }
{
    for (test, wanted) in tests {
        if *wanted && is_op(op, test.op) {
            return Some(&test.value);
        }
    }
    None
}

/// The longest value of the tests of an operator that are asked to hold; empty where there is none. Of equally long
/// ones it is the first.
pub(crate) fn longest_asked(tests: &[(AttrTest, bool)], op: Op) -> &[char]
    ensures { result.now ≡ longest (asked (is_op op) tests.now) }
{
    let mut best: &[char] = &[];
    for (test, wanted) in tests {
        if *wanted && is_op(op, test.op) {
            best = longer(best, test.value.codes());
        }
    }
    best
}

/// The longer of two texts. Of equally long ones it is the first.
fn longer<'a>(best: &'a [char], other: &'a [char]) -> &'a [char]
    ensures { result.now ≡ longer best.now other.now }
{
    if other.len() <= best.len() {
        best
    } else {
        other
    }
}

/// Whether each test is one of a word, or of presence alone.
pub(crate) fn is_of_words(tests: &[(AttrTest, bool)]) -> bool
    ensures { result ≡ list_all (λ t. is_word_or_present t.0.op) tests.now }
{
    tests.iter().all(|(test, _)| is_word_or_present(test.op))
}

/// Whether an operator asks for a word, or for presence alone.
fn is_word_or_present(op: Op) -> bool
    ensures { result ≡ is_word_or_present op }
{
    matches!(op, Op::Word | Op::Present)
}

/// Whether the second operator is the first one.
fn is_op(op: Op, other: Op) -> bool
    ensures { result ≡ is_op op other }
{
    op == other
}

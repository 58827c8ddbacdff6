//! The longest text that a value has to begin with.

ghost use Rattle.std.specs.Prelude.{◌≡◌, if◌then◌else◌, ℕ, List, length};
ghost use Rattle.attr_values.specs.Value.{longer, longest, start_text, start_of, starts};

use css_model::{AttrTest, Op};

/// What a value has to begin with: a text, with `-` after it where `dash` is true.
#[derive(Clone, Copy)]
pub(crate) struct Start<'a> {
    pub(crate) value: &'a [char],
    pub(crate) dash: bool,
}

/// The longest of the values of Prefix that are asked for and those of Dash with `-`; empty where there is none. Of
/// equally long ones it is the first.
pub(crate) fn longest_start(tests: &[(AttrTest, bool)]) -> Start<'_>
    ensures { start_text result.value.now result.dash ≡ longest (starts tests.now) }
{
    let mut best = Start {
        value: &[],
        dash: false,
    };
    for (test, wanted) in tests {
        best = with_start(best, test, *wanted);
    }
    best
}

/// The longer of the best start so far and that of one test more.
fn with_start<'a>(best: Start<'a>, test: &'a AttrTest, wanted: bool) -> Start<'a>
    ensures { (rest : List (List ℕ)) → longer (start_text result.value.now result.dash) (longest rest)
        ≡ longer (start_text best.entry.value.now best.entry.dash)
        (longest (if wanted then start_of test.now.op test.now.value rest else rest)) }
{
    if !wanted {
        return best;
    }
    let value = test.value.codes();
    match test.op {
        Op::Prefix => longer_start(best, Start { value, dash: false }),
        Op::Dash => longer_start(best, Start { value, dash: true }),
        Op::Present | Op::Equal | Op::Word | Op::Suffix | Op::Part => best,
    }
}

/// The longer of two starts. Of equally long ones it is the first.
fn longer_start<'a>(best: Start<'a>, other: Start<'a>) -> Start<'a>
    ensures { start_text result.value.now result.dash
        ≡ longer (start_text best.entry.value.now best.entry.dash)
        (start_text other.entry.value.now other.entry.dash) }
{
    if start_len(other) <= start_len(best) {
        best
    } else {
        other
    }
}

/// How many code points a start has.
fn start_len(start: Start<'_>) -> usize
    ensures { result ≡ length (start_text start.entry.value.now start.entry.dash) }
{
    if start.dash {
        start.value.len() + 1
    } else {
        start.value.len()
    }
}

//! A test that is enough for what `fit` asks of compounds.

ghost use Rattle.std.specs.Prelude.{◌≡◌, ◌++◌, ◌+◌, ◌<◌, nat_le, codes, IsTrue, MatchOption, option_copied};
ghost use Rattle.css_model.specs.Lists.{same_text};
ghost use Rattle.compound_fit.specs.Conditions.{
  IsFittable,
  has_plain_tests,
  is_plain_id,
  is_small,
  most_values,
  value_size,
  values_size,
};
ghost use Rattle.compound_fit.specs.Fitting.{simples_of};

use css_model::{Compound, Op, Simple, Test, Text};

/// How many code points may be in the values of the tests: fewer than there are from U+10000 on.
const MOST_VALUES: usize = 0xFFFFF;

/// Whether `fit` may be asked of compounds. It may where the attribute `id` is tested for presence and equality alone,
/// and the values of the tests of attributes have at most 1,048,575 code points together. Then some code point from `a`
/// on is in none of them.
pub fn is_fittable(x: &Compound, y: Option<&Compound>) -> bool
    ensures exact { result ≡ is_small (x.now ++ simples_of (option_copied y.entry)) }
    ensures enough { IsTrue result → IsFittable (x.now ++ simples_of (option_copied y.entry)) }
{
    match y {
        Some(y) => both_are_small(x.simples.as_slice(), y.simples.as_slice()),
        None => both_are_small(x.simples.as_slice(), &[]),
    }
}

/// Whether `fit` may be asked of the simple selectors of two lists.
fn both_are_small(x: &[Simple], y: &[Simple]) -> bool
    ensures exact { result ≡ is_small (x.now ++ y.now) }
    ensures enough { IsTrue result → IsFittable (x.now ++ y.now) }
{
    are_small(x, y)
}

/// Whether the tests of the attribute `id` are plain, and the values have few enough code points.
fn are_small(x: &[Simple], y: &[Simple]) -> bool
    ensures { result ≡ is_small (x.now ++ y.now) }
{
    has_plain_tests(x) && has_plain_tests(y) && have_room(x, y)
}

/// Whether the attribute `id` is tested for presence and equality alone.
fn has_plain_tests(simples: &[Simple]) -> bool
    ensures { result ≡ has_plain_tests simples.now }
{
    simples.iter().all(|simple| is_plain_id(&simple.test))
}

/// Whether a test of the attribute `id` is one of presence or equality; true of any other test.
fn is_plain_id(test: &Test) -> bool
    ensures { result ≡ is_plain_id test.now }
{
    match test {
        Test::Attr(test) => !is_id(&test.name) || matches!(test.op, Op::Present | Op::Equal),
        _ => true,
    }
}

/// Whether a name is that of the attribute `id`.
pub(crate) fn is_id(name: &Text) -> bool
    ensures { result ≡ same_text name.now (codes "id") }
{
    name.codes() == ['i', 'd'].as_slice()
}

/// Whether the values of two lists of simple selectors have few enough code points.
fn have_room(x: &[Simple], y: &[Simple]) -> bool
    ensures { result ≡ nat_le (values_size (x.now ++ y.now)) most_values }
{
    match room_behind(x, MOST_VALUES) {
        Some(room) => room_behind(y, room).is_some(),
        None => false,
    }
}

/// How much room is left after the code points in the values; `None` where they do not fit.
fn room_behind(simples: &[Simple], room: usize) -> Option<usize>
    ensures { MatchOption result (room < values_size simples.now) (λ left. left + values_size simples.now ≡ room) }
{
    let mut left = room;
    for simple in simples {
        let size = value_size(&simple.test);
        if left < size {
            return None;
        }
        left -= size;
    }
    Some(left)
}

/// How many code points the value of a test of an attribute has.
fn value_size(test: &Test) -> usize
    ensures { result ≡ value_size test.now }
{
    match test {
        Test::Attr(test) => test.value.codes().len(),
        Test::Id(id) => id.codes().len(),
        _ => 0,
    }
}

//! Elements of lines, counted.

ghost use Rattle.std.specs.Prelude.{◌≡◌, ◌<◌, ◌^◌, ◌==◌, not};
ghost use Rattle.css_model.specs.Documents.RunDocuments.{is_below};
ghost use Rattle.cascade_laws.specs.Eval.Climbing.{count_at, has_one_at};

use css_model::RunLine;

/// How many elements of a depth lines begin with. A line of less depth ends them.
#[tactic(auto, using(crate::proofs::Counted::counted))]
pub(crate) fn count_at(lines: &[RunLine], depth: u64) -> u128
    ensures value { result ≡ count_at lines.now depth }
    ensures small { result < 2 ^ 98 }
{
    let mut count = 0;
    let mut left = lines;
    while let Some((line, behind)) = left.split_first() {
        if u64::from(line.depth) == depth {
            count += u128::from(line.count);
        } else if u64::from(line.depth) < depth {
            return count;
        }
        left = behind;
    }
    count
}

/// Whether lines begin with an element of a depth.
#[tactic(auto, using(crate::proofs::Counted::has_counted))]
pub(crate) fn has_one_at(lines: &[RunLine], depth: u64) -> bool
    ensures { result ≡ has_one_at lines.now depth }
{
    count_at(lines, depth) != 0
}

/// Whether the line of this number, from 0, and all before it are deeper.
pub(crate) fn is_below(lines: &[RunLine], depth: u64, number: u32) -> bool
    ensures { result ≡ is_below depth lines.now number }
{
    lines
        .iter()
        .take(number as usize + 1)
        .all(|line| depth < u64::from(line.depth))
}

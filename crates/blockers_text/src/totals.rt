//! How many steps are stopped, and how many bytes they would save.

ghost use Rattle.std.specs.Prelude.{◌≡◌, ◌+◌, ◌<◌, ◌≤◌, ◌^◌};
ghost use Rattle.blockers_text.specs.Tallies as spec;

use crate::stopped::{Part, Stopped, part_of};

/// What a step adds to the totals: the bytes that it would save, and what stops it.
#[derive(Clone, Copy, Debug)]
pub(crate) struct Weighed {
    pub(crate) saved: u32,
    pub(crate) part: Part,
}

/// How many steps there are, and how many bytes they would save together.
#[derive(Clone, Copy, Debug)]
pub(crate) struct Count {
    pub(crate) steps: u128,
    pub(crate) bytes: u128,
}

/// What a step adds to the totals.
pub(crate) fn weigh(stopped: &Stopped) -> Weighed
    ensures { result ≡ spec.weighed stopped.now }
{
    Weighed {
        saved: stopped.saved,
        part: part_of(&stopped.by),
    }
}

/// Whether two parts are the same.
fn same_part(x: Part, y: Part) -> bool
    ensures { result ≡ spec.same_part x y }
{
    match (x, y) {
        (Part::Kept, Part::Kept) | (Part::Rules, Part::Rules) | (Part::Both, Part::Both) => true,
        _ => false,
    }
}

/// Whether a step counts: all do, or those of a part.
fn counts(of: Option<Part>, step: &Weighed) -> bool
    ensures { result ≡ spec.counts of step.now }
{
    match of {
        None => true,
        Some(part) => same_part(step.part, part),
    }
}

/// How many bytes a step would save.
fn saved_of(step: &Weighed) -> u32
    ensures exact { result ≡ step.now.saved }
    ensures small { result < 2 ^ 32 }
{
    step.saved
}

/// A count with a step more, if it counts.
fn with_step(of: Option<Part>, count: &Count, step: &Weighed) -> Count
    requires few { count.now.steps < 2 ^ 64 }
    requires small { count.now.bytes < 2 ^ 100 }
    ensures exact { result ≡ spec.with_step of count.now step.now }
    ensures few { result.steps ≤ count.now.steps + 1 }
    ensures small { result.bytes ≤ count.now.bytes + 2 ^ 32 }
{
    if counts(of, step) {
        Count {
            steps: count.steps + 1,
            bytes: count.bytes + u128::from(saved_of(step)),
        }
    } else {
        *count
    }
}

/// How many steps of a part there are, or of all, and how many bytes they would save.
pub(crate) fn total(of: Option<Part>, steps: &[Weighed]) -> Count
    ensures { result ≡ spec.total of steps.now }
{
    let mut count = Count { steps: 0, bytes: 0 };
    for step in steps {
        count = with_step(of, &count, step);
    }
    count
}

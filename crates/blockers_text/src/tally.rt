//! What the steps that an item stops would save.

ghost use Rattle.std.specs.Prelude.{◌≡◌, ◌==◌, ◌<◌, ◌^◌, length};
ghost use Rattle.blockers_text.specs.Bounds.{IsBelow};
ghost use Rattle.blockers_text.specs.Tallies as spec;

use crate::stopped::{Best, Stopped};
use sheet_order::Reversed;
use step_laws::Step;

/// How many steps an item stops and how many bytes they would save, the same of those that no other item stops, and of
/// these the first of the greatest saving.
#[derive(Clone, Copy, Debug)]
pub(crate) struct Tally {
    pub(crate) steps: u128,
    pub(crate) bytes: u128,
    pub(crate) alone: u128,
    pub(crate) alone_bytes: u128,
    pub(crate) best: Option<Best>,
}

/// The tally of no steps.
pub(crate) fn no_tally() -> Tally
    ensures { result ≡ spec.no_tally }
{
    Tally {
        steps: 0,
        bytes: 0,
        alone: 0,
        alone_bytes: 0,
        best: None,
    }
}

/// A step with the first of the entries that stop it, if there is one.
fn best_by(step: &Step, saved: u32, by: &[Reversed]) -> Option<Best>
    ensures { result ≡ spec.best_by step.now saved by.now }
{
    match by {
        [] => None,
        [entry, ..] => Some(Best {
            step: *step,
            saved,
            entry: *entry,
        }),
    }
}

/// The first of two if it saves as much or more, otherwise the second.
fn better(old: Option<Best>, new: Option<Best>) -> Option<Best>
    ensures { result ≡ spec.better old new }
{
    match (old, new) {
        (None, new) => new,
        (Some(old), None) => Some(old),
        (Some(old), Some(new)) => {
            if old.saved < new.saved {
                Some(new)
            } else {
                Some(old)
            }
        }
    }
}

/// A tally with a step that its item stops.
pub(crate) fn counted(tally: &Tally, stopped: &Stopped) -> Tally
    requires { IsBelow (2 ^ 70) tally.now }
    ensures { result ≡ spec.counted tally.now stopped.now }
{
    let steps = tally.steps + 1;
    let bytes = tally.bytes + u128::from(stopped.saved);
    if stopped.by.len() == 1 {
        Tally {
            steps,
            bytes,
            alone: tally.alone + 1,
            alone_bytes: tally.alone_bytes + u128::from(stopped.saved),
            best: better(
                tally.best,
                best_by(&stopped.step, stopped.saved, &stopped.by),
            ),
        }
    } else {
        Tally {
            steps,
            bytes,
            alone: tally.alone,
            alone_bytes: tally.alone_bytes,
            best: tally.best,
        }
    }
}

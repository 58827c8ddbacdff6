//! The command `diff`: two style sheets on the input; on the output all that is found in them.

ghost use Rattle.std.specs.Prelude.{◌≡◌};
ghost use Rattle.cssmin_run.specs.Commands.Diff.{TellsDifferences};
ghost use Rattle.cssmin_run.specs.Commands.Same.{SameRefuses};
ghost use Rattle.cssmin_run.specs.Placed as placed;
ghost use Rattle.cssmin_run.specs.Tasks.{Silent};
ghost use Rattle.same_text.specs.SameTexts.{max_both};

use crate::commands::cmp::unasked;
use crate::placed::in_two_sheets;
use crate::status::{Status, too_long_sheet};
use crate::tasks::{Answer, Task};
use diff_text::diff_lines;
use line_places::Place;
use same_text::{MAX_BOTH, SameError};
use std::alloc::Global;

/// The command `diff`.
#[derive(Clone, Copy)]
pub(crate) struct Diff {
    /// How many bytes the first sheet has.
    pub(crate) split: u32,
    /// How many clauses may be learned for a pair, where the words say it.
    pub(crate) budget: Option<u32>,
    /// How many couples in another order may be told.
    pub(crate) limit: u32,
}

impl Task for Diff {
    ghost most = { λ _. max_both };

    ghost makes = { λ task. Silent (TellsDifferences task.split task.budget task.limit) };

    ghost refuses = { λ task. SameRefuses task.split };

    ghost told_place = { λ task. placed.in_two_sheets task.split };

    fn limit(&self) -> u32 {
        MAX_BOTH
    }

    fn too_long(&self) -> Status {
        too_long_sheet()
    }

    fn answer(&self, alloc: Global, bytes: &[u8]) -> Result<Answer, Status> {
        let mut pairs = unasked(alloc, self.budget);
        match diff_lines(alloc, &mut pairs, bytes, self.split, self.limit) {
            Ok(text) => Ok(Answer {
                text,
                report: Vec::new(alloc),
                held: Some(pairs),
            }),
            Err(SameError::NoSplit(number)) => Err(Status::NoSplit(number)),
            Err(SameError::First(fault)) => Err(Status::SheetRefused(fault)),
            Err(SameError::Second(fault)) => Err(Status::SecondRefused(fault)),
            Err(SameError::NoMemory) => Err(Status::NoMemory),
        }
    }

    fn place(&self, status: Status, bytes: &[u8]) -> Option<Place> {
        in_two_sheets(self.split, status, bytes)
    }
}

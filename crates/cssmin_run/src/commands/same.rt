//! The command `same`: two style sheets on the input; on the output what is found in them.

ghost use Rattle.std.specs.Prelude.{◌≡◌};
ghost use Rattle.cssmin_run.specs.Commands.Same.{ComparesSheets, SameRefuses};
ghost use Rattle.cssmin_run.specs.Placed.{nowhere};
ghost use Rattle.cssmin_run.specs.Tasks.{Silent};
ghost use Rattle.same_text.specs.SameTexts.{max_both};

use crate::commands::cmp::unasked;
use crate::status::{Status, too_long_sheet};
use crate::tasks::{Answer, Task};
use line_places::Place;
use same_text::{MAX_BOTH, SameError, same_lines};
use std::alloc::Global;

/// The command `same`.
#[derive(Clone, Copy)]
pub(crate) struct Same {
    /// How many bytes the first sheet has.
    pub(crate) split: u32,
    /// How many clauses may be learned for a pair, where the words say it.
    pub(crate) budget: Option<u32>,
}

impl Task for Same {
    ghost most = { λ _. max_both };

    ghost makes = { λ task. Silent (ComparesSheets task.split task.budget) };

    ghost refuses = { λ task. SameRefuses task.split };

    ghost told_place = { λ _. nowhere };

    fn limit(&self) -> u32 {
        MAX_BOTH
    }

    fn too_long(&self) -> Status {
        too_long_sheet()
    }

    fn answer(&self, alloc: Global, bytes: &[u8]) -> Result<Answer, Status> {
        let mut pairs = unasked(alloc, self.budget);
        match same_lines(alloc, &mut pairs, bytes, self.split) {
            Ok(text) => Ok(Answer {
                text,
                report: Vec::new(alloc),
                held: Some(pairs),
            }),
            Err(SameError::NoSplit(number)) => Err(Status::NoSplit(number)),
            Err(SameError::First(fault)) => Err(Status::SheetRefused(fault)),
            Err(SameError::Second(fault)) => Err(Status::SecondRefused(fault)),
            Err(SameError::NoMemory) => Err(Status::NoMemory),
        }
    }

    fn place(&self, _status: Status, _bytes: &[u8]) -> Option<Place> {
        None
    }
}

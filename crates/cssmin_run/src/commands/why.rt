//! The command `why`: a style sheet on the input; on the output what hinders the move of one of its rules.

ghost use Rattle.std.specs.Prelude.{◌≡◌};
ghost use Rattle.css_model.specs.Sheets.Limits.{max_bytes};
ghost use Rattle.cssmin_run.specs.Commands.Why.{ExplainsMove, WhyRefuses};
ghost use Rattle.cssmin_run.specs.Placed.{nowhere};
ghost use Rattle.cssmin_run.specs.Tasks.{Silent};

use crate::commands::cmp::unasked;
use crate::status::{Status, too_long_sheet};
use crate::tasks::{Answer, Task};
use css_model::MAX_BYTES;
use line_places::Place;
use std::alloc::Global;
use why_text::{WhyError, why_lines};

/// The command `why`.
#[derive(Clone, Copy)]
pub(crate) struct Why {
    /// The number of the rule that is moved, from 1.
    pub(crate) from: u32,
    /// The number of the one that it is moved to, from 1.
    pub(crate) to: u32,
    /// How many clauses may be learned for a pair, where the words say it.
    pub(crate) budget: Option<u32>,
}

impl Task for Why {
    ghost most = { λ _. max_bytes };

    ghost makes = { λ task. Silent (ExplainsMove task.from task.to task.budget) };

    ghost refuses = { λ task. WhyRefuses task.from task.to };

    ghost told_place = { λ _. nowhere };

    fn limit(&self) -> u32 {
        MAX_BYTES
    }

    #[tactic(auto, using(crate::proofs::Faults::too_long_is_read))]
    fn too_long(&self) -> Status {
        too_long_sheet()
    }

    fn answer(&self, alloc: Global, bytes: &[u8]) -> Result<Answer, Status> {
        let mut pairs = unasked(alloc, self.budget);
        match why_lines(alloc, &mut pairs, bytes, self.from, self.to) {
            Ok(text) => Ok(Answer {
                text,
                report: Vec::new(alloc),
                held: Some(pairs),
            }),
            Err(WhyError::Sheet(fault)) => Err(Status::SheetRefused(fault)),
            Err(WhyError::NoItem(number)) => Err(Status::NoItem(number)),
            Err(WhyError::NoMemory) => Err(Status::NoMemory),
        }
    }

    fn place(&self, _status: Status, _bytes: &[u8]) -> Option<Place> {
        None
    }
}

//! The command `dead`: a style sheet on the input; on the output a line for each selector, whether it matches anything
//! in a legal document.

ghost use Rattle.std.specs.Prelude.{◌≡◌};
ghost use Rattle.css_model.specs.Sheets.Limits.{max_bytes};
ghost use Rattle.cssmin_run.specs.Commands.Dead.{TellsLives};
ghost use Rattle.cssmin_run.specs.Commands.Min.{MinRefuses};
ghost use Rattle.cssmin_run.specs.Placed.{nowhere};
ghost use Rattle.cssmin_run.specs.Tasks.{Silent};

use crate::commands::cmp::unasked;
use crate::status::{Status, too_long_sheet};
use crate::tasks::{Answer, Task};
use css_model::MAX_BYTES;
use dead_text::dead_lines;
use line_places::Place;
use sheet_read::SheetError;
use std::alloc::Global;

/// The command `dead`.
#[derive(Clone, Copy)]
pub(crate) struct Dead {
    /// How many clauses may be learned for a pair, where the words say it.
    pub(crate) budget: Option<u32>,
}

impl Task for Dead {
    ghost most = { λ _. max_bytes };

    ghost makes = { λ task. Silent (TellsLives task.budget) };

    ghost refuses = { λ _. MinRefuses };

    ghost told_place = { λ _. nowhere };

    fn limit(&self) -> u32 {
        MAX_BYTES
    }

    #[tactic(auto, using(crate::proofs::Faults::too_long))]
    fn too_long(&self) -> Status {
        too_long_sheet()
    }

    #[tactic(auto, unfolding(crate::specs::SheetFaults::HasFault))]
    fn answer(&self, alloc: Global, bytes: &[u8]) -> Result<Answer, Status> {
        let mut pairs = unasked(alloc, self.budget);
        match dead_lines(alloc, &mut pairs, bytes) {
            Ok(text) => {
                pairs.are_true();
                Ok(Answer {
                    text,
                    report: Vec::new(alloc),
                    held: Some(pairs),
                })
            }
            Err(SheetError::Fault(fault)) => Err(Status::SheetRefused(fault)),
            Err(SheetError::NoMemory) => Err(Status::NoMemory),
        }
    }

    fn place(&self, _status: Status, _bytes: &[u8]) -> Option<Place> {
        None
    }
}

//! The command `blockers`: a style sheet on the input; on the output what stops the merges that are left in it.

ghost use Rattle.std.specs.Prelude.{◌≡◌};
ghost use Rattle.css_model.specs.Sheets.Limits.{max_bytes};
ghost use Rattle.cssmin_run.specs.Commands.Blockers.{TellsBlockers};
ghost use Rattle.cssmin_run.specs.Commands.Min.{MinRefuses};
ghost use Rattle.cssmin_run.specs.Placed as placed;
ghost use Rattle.cssmin_run.specs.Tasks.{Silent};

use crate::commands::cmp::unasked;
use crate::placed::in_sheet;
use crate::status::{Status, too_long_sheet};
use crate::tasks::{Answer, Task};
use blockers_text::blockers_lines;
use css_model::MAX_BYTES;
use line_places::Place;
use sheet_read::SheetError;
use std::alloc::Global;

/// The command `blockers`.
#[derive(Clone, Copy)]
pub(crate) struct Blockers {
    /// How many clauses may be learned for a pair, where the words say it.
    pub(crate) budget: Option<u32>,
}

impl Task for Blockers {
    ghost most = { λ _. max_bytes };

    ghost makes = { λ task. Silent (TellsBlockers task.budget) };

    ghost refuses = { λ _. MinRefuses };

    ghost told_place = { λ _. placed.in_sheet };

    fn limit(&self) -> u32 {
        MAX_BYTES
    }

    #[tactic(auto, using(crate::proofs::Faults::too_long))]
    fn too_long(&self) -> Status {
        too_long_sheet()
    }

    #[tactic(auto, unfolding(crate::specs::SheetFaults::HasFault))]
    fn answer(&self, alloc: Global, bytes: &[u8]) -> Result<Answer, Status> {
        let mut pairs = unasked(alloc, self.budget);
        match blockers_lines(alloc, &mut pairs, bytes) {
            Ok(text) => Ok(Answer {
                text,
                report: Vec::new(alloc),
                held: Some(pairs),
            }),
            Err(SheetError::Fault(fault)) => Err(Status::SheetRefused(fault)),
            Err(SheetError::NoMemory) => Err(Status::NoMemory),
        }
    }

    fn place(&self, status: Status, bytes: &[u8]) -> Option<Place> {
        in_sheet(status, bytes)
    }
}

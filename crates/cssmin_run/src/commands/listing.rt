//! The command `list`: a style sheet on the input; on the output a line for each of its items, with its number, its
//! place, its kind and its head.

ghost use Rattle.std.specs.Prelude.{◌≡◌};
ghost use Rattle.css_model.specs.Sheets.Limits.{max_bytes};
ghost use Rattle.cssmin_run.specs.Commands.Listing.{ListsItems};
ghost use Rattle.cssmin_run.specs.Commands.Min.{MinRefuses};
ghost use Rattle.cssmin_run.specs.Placed as placed;
ghost use Rattle.cssmin_run.specs.Tasks.{Silent};

use crate::placed::in_sheet;
use crate::status::{Status, too_long_sheet};
use crate::tasks::{Answer, Task};
use css_model::MAX_BYTES;
use line_places::Place;
use list_text::list_lines;
use sheet_read::SheetError;
use std::alloc::Global;

/// The command `list`.
#[derive(Clone, Copy)]
pub(crate) struct Listing;

impl Task for Listing {
    ghost most = { λ _. max_bytes };

    ghost makes = { λ _. Silent ListsItems };

    ghost refuses = { λ _. MinRefuses };

    ghost told_place = { λ _. placed.in_sheet };

    fn limit(&self) -> u32 {
        MAX_BYTES
    }

    #[tactic(auto, using(crate::proofs::Faults::too_long))]
    fn too_long(&self) -> Status {
        too_long_sheet()
    }

    #[tactic(auto, unfolding(crate::specs::SheetFaults::HasFault))]
    fn answer(&self, alloc: Global, bytes: &[u8]) -> Result<Answer, Status> {
        match list_lines(alloc, bytes) {
            Ok(text) => Ok(Answer {
                text,
                report: Vec::new(alloc),
                held: None,
            }),
            Err(SheetError::Fault(fault)) => Err(Status::SheetRefused(fault)),
            Err(SheetError::NoMemory) => Err(Status::NoMemory),
        }
    }

    fn place(&self, status: Status, bytes: &[u8]) -> Option<Place> {
        in_sheet(status, bytes)
    }
}

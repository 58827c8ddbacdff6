//! The command `inspect`: a document and a style sheet on the input; on the output a line for each declaration that the
//! rules of the sheet apply to the marked element.

ghost use Rattle.css_model.specs.Sheets.Limits.{max_bytes};
ghost use Rattle.cssmin_run.specs.Commands.Inspect.{TellsGroups};
ghost use Rattle.cssmin_run.specs.Commands.Style.{StyleRefuses};
ghost use Rattle.cssmin_run.specs.Placed as placed;
ghost use Rattle.cssmin_run.specs.Tasks.{Silent};

use crate::placed::in_sheet_part;
use crate::status::{Status, too_long_sheet};
use crate::tasks::{Answer, Task};
use css_model::MAX_BYTES;
use inspect_text::inspect_lines;
use line_places::Place;
use std::alloc::Global;
use style_text::StyleError;

/// The command `inspect`.
#[derive(Clone, Copy)]
pub(crate) struct Inspect;

impl Task for Inspect {
    ghost most = { λ _. max_bytes };

    ghost makes = { λ _. Silent TellsGroups };

    ghost refuses = { λ _. StyleRefuses };

    ghost told_place = { λ _. placed.in_sheet_part };

    fn limit(&self) -> u32 {
        MAX_BYTES
    }

    fn too_long(&self) -> Status {
        too_long_sheet()
    }

    fn answer(&self, alloc: Global, bytes: &[u8]) -> Result<Answer, Status> {
        match inspect_lines(alloc, bytes) {
            Ok(text) => Ok(Answer {
                text,
                report: Vec::new(alloc),
                held: None,
            }),
            Err(StyleError::Document(fault)) => Err(Status::DocRefused(fault)),
            Err(StyleError::Sheet(fault)) => Err(Status::SheetRefused(fault)),
            Err(StyleError::NoMemory) => Err(Status::NoMemory),
        }
    }

    fn place(&self, status: Status, bytes: &[u8]) -> Option<Place> {
        in_sheet_part(status, bytes)
    }
}

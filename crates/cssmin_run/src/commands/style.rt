//! The command `style`: a document and a style sheet on the input; on the output a line for each declaration that wins.

ghost use Rattle.css_model.specs.Sheets.Limits.{max_bytes};
ghost use Rattle.cssmin_run.specs.Commands.Style.{StyleRefuses, TellsWinners};
ghost use Rattle.cssmin_run.specs.Placed.{nowhere};
ghost use Rattle.cssmin_run.specs.Tasks.{Silent};

use crate::status::{Status, too_long_sheet};
use crate::tasks::{Answer, Task};
use css_model::MAX_BYTES;
use line_places::Place;
use std::alloc::Global;
use style_text::{StyleError, style_lines};

/// The command `style`.
#[derive(Clone, Copy)]
pub(crate) struct Style;

impl Task for Style {
    ghost most = { λ _. max_bytes };

    ghost makes = { λ _. Silent TellsWinners };

    ghost refuses = { λ _. StyleRefuses };

    ghost told_place = { λ _. nowhere };

    fn limit(&self) -> u32 {
        MAX_BYTES
    }

    fn too_long(&self) -> Status {
        too_long_sheet()
    }

    fn answer(&self, alloc: Global, bytes: &[u8]) -> Result<Answer, Status> {
        match style_lines(alloc, bytes) {
            Ok(text) => Ok(Answer {
                text,
                report: Vec::new(alloc),
                held: None,
            }),
            Err(StyleError::Document(fault)) => Err(Status::DocRefused(fault)),
            Err(StyleError::Sheet(fault)) => Err(Status::SheetRefused(fault)),
            Err(StyleError::NoMemory) => Err(Status::NoMemory),
        }
    }

    fn place(&self, _status: Status, _bytes: &[u8]) -> Option<Place> {
        None
    }
}

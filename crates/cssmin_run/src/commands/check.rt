//! The command `check`: a log on the input; on the output whether it refutes its formula.

ghost use Rattle.cssmin_run.specs.Commands.Check.{CheckRefuses, Checks};
ghost use Rattle.cssmin_run.specs.Placed.{nowhere};
ghost use Rattle.cssmin_run.specs.Tasks.{Silent};
ghost use Rattle.log_text.specs.CheckedTexts.{max_log_bytes};

use crate::status::{LogFault, Status};
use crate::tasks::{Answer, Task};
use line_places::Place;
use log_text::{CheckError, MAX_LOG_BYTES, check_text};
use std::alloc::Global;

/// The command `check`.
#[derive(Clone, Copy)]
pub(crate) struct Check;

impl Task for Check {
    ghost most = { λ _. max_log_bytes };

    ghost makes = { λ _. Silent Checks };

    ghost refuses = { λ _. CheckRefuses };

    ghost told_place = { λ _. nowhere };

    fn limit(&self) -> u32 {
        MAX_LOG_BYTES
    }

    fn too_long(&self) -> Status {
        Status::LogRefused(LogFault::TooLong)
    }

    fn answer(&self, alloc: Global, bytes: &[u8]) -> Result<Answer, Status> {
        match check_text(alloc, bytes) {
            Ok(text) => Ok(Answer {
                text,
                report: Vec::new(alloc),
                held: None,
            }),
            Err(CheckError::TooLong) => Err(Status::LogRefused(LogFault::TooLong)),
            Err(CheckError::BadLine(line)) => Err(Status::LogRefused(LogFault::BadLine(line))),
            Err(CheckError::NoMemory) => Err(Status::NoMemory),
        }
    }

    fn place(&self, _status: Status, _bytes: &[u8]) -> Option<Place> {
        None
    }
}

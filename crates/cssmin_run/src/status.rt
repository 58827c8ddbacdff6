//! How a run ended.

ghost use Rattle.std.specs.Prelude.{◌≡◌};
ghost use Rattle.std.specs.Process.{exit_status};
ghost use Rattle.css_model.specs.Sheets.Limits.{max_bytes};
ghost use Rattle.cssmin_run.specs.Status.{number_of};

use css_model::{FaultKind, MAX_BYTES, SheetFault};
use std::process::ExitCode;
use style_text::DocFault;

/// Why a log is refused.
#[derive(Clone, Copy, Debug, PartialEq, Eq)]
pub enum LogFault {
    /// It has more than 134,217,728 bytes.
    TooLong,
    /// The first line, from 1, that no log has.
    BadLine(u64),
}

/// How a run ended.
#[derive(Clone, Copy, Debug, PartialEq, Eq)]
pub enum Status {
    /// The text was written.
    Done,
    /// The text was written, and it tells that something was found.
    Found,
    /// The words are not those of a command.
    Usage,
    /// The sheet has a fault.
    SheetRefused(SheetFault),
    /// The input could not be read.
    ReadFault,
    /// The output could not be written.
    WriteFault,
    /// There was not enough memory. Nothing was written to the output.
    NoMemory,
    /// The sheet has no item of this number.
    NoItem(u32),
    /// The text of a document has a fault.
    DocRefused(DocFault),
    /// The log has a fault.
    LogRefused(LogFault),
    /// The input has fewer bytes than this number, which the first sheet was to have.
    NoSplit(u32),
    /// The second sheet has a fault.
    SecondRefused(SheetFault),
}

impl Status {
    /// The number of the status: 0 to 11.
    pub fn number(&self) -> u8
        ensures { result ≡ number_of self.now }
    {
        match self {
            Status::Done => 0,
            Status::Found => 1,
            Status::Usage => 2,
            Status::SheetRefused(_) => 3,
            Status::ReadFault => 4,
            Status::WriteFault => 5,
            Status::NoMemory => 6,
            Status::NoItem(_) => 7,
            Status::DocRefused(_) => 9,
            Status::LogRefused(_) => 8,
            Status::NoSplit(_) => 10,
            Status::SecondRefused(_) => 11,
        }
    }

    /// What the process ends with: the number of the status.
    pub fn exit_code(&self) -> ExitCode
        ensures { exit_status result ≡ number_of self.now }
    {
        ExitCode::from(self.number())
    }
}

/// How a sheet of more bytes than are read is refused.
pub(crate) fn too_long_sheet() -> Status
    ensures { result ≡ Status.SheetRefused (record { kind = FaultKind.TooLong; at = max_bytes }) }
{
    Status::SheetRefused(SheetFault {
        kind: FaultKind::TooLong,
        at: MAX_BYTES,
    })
}

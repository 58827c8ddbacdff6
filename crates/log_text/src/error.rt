//! Why a text is not checked.

ghost use Rattle.std.specs.Prelude.{◌≡◌};

use rup_check::LogError;
use std::alloc::AllocError;
use std::fmt;
use thiserror::Error;

/// Why a text is not checked.
#[derive(Clone, Copy, Debug, PartialEq, Eq, Error)]
pub enum CheckError {
    /// The text has more than 134,217,728 bytes.
    TooLong,
    /// The first line, from 1, that no log has; one past the last where a line is missing.
    BadLine(u64),
    /// There is not enough memory.
    NoMemory,
}

impl fmt::Display for CheckError {
    ghost use Rattle.std.specs.Prelude.{Some};
    ghost use Rattle.log_text.specs.Messages.{message};

    ghost output = { λ error. Some (message error) };

    fn fmt<W: fmt::Write>(&self, f: &mut fmt::Formatter<W>) -> fmt::Result {
        match self {
            CheckError::TooLong => f.write_str("there are more bytes than a log may have"),
            CheckError::BadLine(n) => write!(f, "line {n} is not of a log"),
            CheckError::NoMemory => f.write_str("out of memory"),
        }
    }
}

impl From<AllocError> for CheckError {
    ghost use Rattle.log_text.specs.declared.error.CheckError.TheVariants.{NoMemory};

    ghost from_gives = { λ _ e. e ≡ NoMemory };

    fn from(_: AllocError) -> CheckError {
        CheckError::NoMemory
    }
}

impl From<LogError> for CheckError {
    ghost use Rattle.log_text.specs.CheckedTexts.{check_error};

    ghost from_gives = { λ error e. e ≡ check_error error };

    fn from(error: LogError) -> CheckError {
        match error {
            LogError::BadLine(n) => CheckError::BadLine(n),
            LogError::NoMemory => CheckError::NoMemory,
        }
    }
}

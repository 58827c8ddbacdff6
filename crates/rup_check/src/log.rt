//! A log, and what is said of it.
use cnf::{Clause, Formula};
use std::alloc::{AllocError, AllocFailed};

/// A formula, and clauses that are to follow from it, each from the formula and the clauses before it.
#[derive(Debug, Drop)]
pub struct Log {
    /// The formula.
    pub formula: Formula,
    /// The steps.
    pub steps: Vec<Clause>,
}

/// Why a text is not a log.
#[derive(Clone, Copy, Debug, PartialEq, Eq)]
pub enum LogError {
    /// The number of the first line, from 1, that no log has; one past the last where a line is missing.
    BadLine(u64),
    /// Memory ran out.
    NoMemory,
}

impl From<AllocError> for LogError {
    ghost use Rattle.std.specs.Prelude.{◌≡◌};
    ghost use Rattle.rup_check.specs.declared.log.LogError.TheVariants.{NoMemory};

    ghost from_gives = { λ _ e. e ≡ NoMemory };

    fn from(_: AllocError) -> LogError {
        LogError::NoMemory
    }
}

impl<T: Drop> From<AllocFailed<T>> for LogError {
    ghost use Rattle.std.specs.Prelude.{◌≡◌};
    ghost use Rattle.rup_check.specs.declared.log.LogError.TheVariants.{NoMemory};

    ghost from_gives = { λ _ e. e ≡ NoMemory };

    fn from(_: AllocFailed<T>) -> LogError {
        LogError::NoMemory
    }
}

/// What the check of a log says.
#[derive(Clone, Copy, Debug, PartialEq, Eq)]
pub enum Checked {
    /// Each step is forced, and the formula has an empty clause or the last step is empty.
    Yes,
    /// The number of the first step that is not forced, from 1; one more than the number of steps where each is forced.
    No(u64),
}

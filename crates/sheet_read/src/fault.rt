//! Why a style sheet was not read.

ghost use Rattle.std.specs.Prelude.{◌≡◌};

use css_model::SheetFault;
use std::alloc::{AllocError, AllocFailed};
use std::fmt;
use thiserror::Error;

/// Why a style sheet was not read.
#[derive(Debug, Drop, Error)]
pub enum SheetError {
    /// The sheet has a fault, at a place of its text.
    Fault(SheetFault),
    /// There is not enough memory.
    NoMemory,
}

impl fmt::Display for SheetError {
    ghost use Rattle.std.specs.Prelude.{Some};
    ghost use Rattle.sheet_read.specs.Messages.{message};

    ghost output = { λ error. Some (message error) };

    fn fmt<W: fmt::Write>(&self, f: &mut fmt::Formatter<W>) -> fmt::Result {
        match self {
            SheetError::Fault(fault) => {
                let fault = *fault;
                write!(f, "the style sheet is refused: {fault}")
            }
            SheetError::NoMemory => f.write_str("out of memory"),
        }
    }
}

impl From<AllocError> for SheetError {
    ghost use Rattle.sheet_read.specs.declared.fault.SheetError.TheVariants.{NoMemory};

    ghost from_gives = { λ _ e. e ≡ NoMemory };

    fn from(_: AllocError) -> SheetError {
        SheetError::NoMemory
    }
}

impl From<SheetFault> for SheetError {
    ghost use Rattle.sheet_read.specs.declared.fault.SheetError.TheVariants.{Fault};

    ghost from_gives = { λ fault e. e ≡ Fault fault };

    fn from(fault: SheetFault) -> SheetError {
        SheetError::Fault(fault)
    }
}

impl<T: Drop> From<AllocFailed<T>> for SheetError {
    ghost use Rattle.sheet_read.specs.declared.fault.SheetError.TheVariants.{NoMemory};

    ghost from_gives = { λ _ e. e ≡ NoMemory };

    fn from(_: AllocFailed<T>) -> SheetError {
        SheetError::NoMemory
    }
}

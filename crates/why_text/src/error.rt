//! Why a move was not explained.

ghost use Rattle.std.specs.Prelude.{◌≡◌};

use css_model::SheetFault;
use sheet_read::SheetError;
use std::alloc::AllocError;
use thiserror::Error;

/// Why a move was not explained.
#[derive(Debug, Drop, Error)]
pub enum WhyError {
    /// The style sheet has a fault, at a place of its text.
    #[error("the style sheet is refused: {0}")]
    Sheet(SheetFault),
    /// The sheet has no item of this number, counted from 1.
    #[error("no item {0}")]
    NoItem(u32),
    /// There is not enough memory.
    #[error("out of memory")]
    NoMemory,
}

impl From<AllocError> for WhyError {
    ghost use Rattle.why_text.specs.declared.error.WhyError.TheVariants.{NoMemory};

    ghost from_gives = { λ _ e. e ≡ NoMemory };

    fn from(_: AllocError) -> WhyError {
        WhyError::NoMemory
    }
}

impl From<SheetError> for WhyError {
    ghost use Rattle.why_text.specs.Errors.{read_error};

    ghost from_gives = { λ error e. e ≡ read_error error };

    fn from(error: SheetError) -> WhyError {
        match error {
            SheetError::Fault(fault) => WhyError::Sheet(fault),
            SheetError::NoMemory => WhyError::NoMemory,
        }
    }
}

//! Why two sheets were not compared.

ghost use Rattle.std.specs.Prelude.{◌≡◌};

use css_model::SheetFault;
use std::alloc::AllocError;
use thiserror::Error;

/// Why two sheets were not compared.
#[derive(Debug, Drop, Error)]
pub enum SameError {
    /// The text has fewer bytes than the first sheet was to have.
    #[error("no split {0}")]
    NoSplit(u32),
    /// The first sheet has a fault, at a place of it.
    #[error("the first style sheet is refused: {0}")]
    First(SheetFault),
    /// The second sheet has a fault, at a place of it.
    #[error("the second style sheet is refused: {0}")]
    Second(SheetFault),
    /// There is not enough memory.
    #[error("out of memory")]
    NoMemory,
}

impl From<AllocError> for SameError {
    ghost use Rattle.same_text.specs.declared.error.SameError.TheVariants.{NoMemory};

    ghost from_gives = { λ _ e. e ≡ NoMemory };

    fn from(_: AllocError) -> SameError {
        SameError::NoMemory
    }
}

//! Why an input was not answered.

ghost use Rattle.std.specs.Prelude.{◌≡◌};

use css_model::SheetFault;
use std::alloc::{AllocError, AllocFailed};
use std::fmt;
use thiserror::Error;

/// Why the text of a document is none. It is displayed as `line N` or `too many lines`.
#[derive(Clone, Copy, Debug, PartialEq, Eq, Error)]
pub enum DocFault {
    /// The line, from 1, that is to blame.
    BadLine(u32),
    /// The text has more than 4,096 line ends.
    TooManyLines,
}

impl fmt::Display for DocFault {
    ghost use Rattle.std.specs.Prelude.{Some};
    ghost use Rattle.style_text.specs.Messages.{doc_fault_text};

    ghost output = { λ fault. Some (doc_fault_text fault) };

    fn fmt<W: fmt::Write>(&self, f: &mut fmt::Formatter<W>) -> fmt::Result {
        match self {
            DocFault::BadLine(n) => write!(f, "line {n}"),
            DocFault::TooManyLines => f.write_str("too many lines"),
        }
    }
}

/// Why an input was not answered.
#[derive(Debug, Drop, Error)]
pub enum StyleError {
    /// The text of the document is none.
    Document(DocFault),
    /// The sheet has a fault, at a place of the sheet, in bytes from 0; or the input is too long.
    Sheet(SheetFault),
    /// There is not enough memory.
    NoMemory,
}

impl fmt::Display for StyleError {
    ghost use Rattle.std.specs.Prelude.{Some};
    ghost use Rattle.style_text.specs.Messages.{message};

    ghost output = { λ error. Some (message error) };

    fn fmt<W: fmt::Write>(&self, f: &mut fmt::Formatter<W>) -> fmt::Result {
        match self {
            StyleError::Document(fault) => {
                let fault = *fault;
                write!(f, "document refused: {fault}")
            }
            StyleError::Sheet(fault) => {
                let fault = *fault;
                write!(f, "refused: {fault}")
            }
            StyleError::NoMemory => f.write_str("out of memory"),
        }
    }
}

impl From<AllocError> for StyleError {
    ghost use Rattle.style_text.specs.declared.fault.StyleError.TheVariants.{NoMemory};

    ghost from_gives = { λ _ e. e ≡ NoMemory };

    fn from(_: AllocError) -> StyleError {
        StyleError::NoMemory
    }
}

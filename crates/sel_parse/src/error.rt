//! Why a text is no selector of the profile.

ghost use Rattle.std.specs.Prelude.{◌≡◌};

use css_model::Reason;
use std::alloc::{AllocError, AllocFailed};
use std::fmt;
use thiserror::Error;

/// Why a text is no selector of the profile.
#[derive(Clone, Copy, Debug, PartialEq, Eq, Error)]
pub enum SelError {
    /// The text is outside the profile; the number of the reason, from 1 to 10.
    Outside(u32),
    /// There is not enough memory.
    NoMemory,
}

impl fmt::Display for SelError {
    ghost use Rattle.std.specs.Prelude.{Some};
    ghost use Rattle.sel_parse.specs.Messages.{message};

    ghost output = { λ error. Some (message error) };

    fn fmt<W: fmt::Write>(&self, f: &mut fmt::Formatter<W>) -> fmt::Result {
        match self {
            SelError::Outside(reason) => {
                let reason = *reason;
                write!(f, "outside the profile for reason {reason}")
            }
            SelError::NoMemory => f.write_str("out of memory"),
        }
    }
}

/// Why a text is no selector of the profile, by the reason itself.
#[derive(Clone, Copy, Debug)]
pub(crate) enum Refusal {
    /// The text is outside the profile.
    Outside(Reason),
    /// There is not enough memory.
    NoMemory,
}

impl From<AllocError> for Refusal {
    ghost use Rattle.sel_parse.specs.declared.error.Refusal.TheVariants.{NoMemory};

    ghost from_gives = { λ _ e. e ≡ NoMemory };

    fn from(_: AllocError) -> Refusal {
        Refusal::NoMemory
    }
}

impl<T: Drop> From<AllocFailed<T>> for Refusal {
    ghost use Rattle.sel_parse.specs.declared.error.Refusal.TheVariants.{NoMemory};

    ghost from_gives = { λ _ e. e ≡ NoMemory };

    fn from(_: AllocFailed<T>) -> Refusal {
        Refusal::NoMemory
    }
}

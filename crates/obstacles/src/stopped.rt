//! Why it is not known what blocks a step.

ghost use Rattle.std.specs.Prelude.{◌≡◌};

use std::alloc::AllocError;
use thiserror::Error;

/// Why it was not found out what blocks a step.
#[derive(Clone, Copy, Debug, PartialEq, Eq, Error)]
pub enum Stopped {
    /// There is not enough memory.
    #[error("out of memory")]
    Memory,
    /// As many answers are held as are allowed, and one more is needed.
    #[error("no more answers are allowed")]
    Work,
}

impl From<AllocError> for Stopped {
    ghost use Rattle.obstacles.specs.declared.stopped.Stopped.TheVariants.{Memory};

    ghost from_gives = { λ _ e. e ≡ Memory };

    fn from(_: AllocError) -> Stopped {
        Stopped::Memory
    }
}

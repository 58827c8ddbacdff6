//! The numbers that callers see: of statuses, and of kinds of faults.

ghost use Rattle.std.specs.Prelude.{◌≡◌};
ghost use Rattle.cssmin_c.specs.Statuses.{kind_number};

use css_model::FaultKind;

/// A call did what it is for.
pub const DONE: u32 = 0;
/// The sheet has a fault.
pub const REFUSED: u32 = 3;
/// There was not enough memory.
pub const NO_MEMORY: u32 = 6;
/// A text is longer than the buffer of the caller.
pub const NO_ROOM: u32 = 12;

/// The number of a kind of fault, from 1.
pub(crate) fn kind_number(kind: FaultKind) -> u32
    ensures { result ≡ kind_number kind }
{
    match kind {
        FaultKind::TooLong => 1,
        FaultKind::NotUtf8 => 2,
        FaultKind::BadString => 3,
        FaultKind::BadUrl => 4,
        FaultKind::EndInside => 5,
        FaultKind::TooDeep => 6,
        FaultKind::Namespace => 7,
        FaultKind::TooManyItems => 8,
        FaultKind::TooManyPairs => 9,
    }
}

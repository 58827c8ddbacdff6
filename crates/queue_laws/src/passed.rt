//! A candidate that was queued and is passed.

ghost use Rattle.queue_laws.specs.Passed.{BlockedIsPassed, MoreIsPassed, NoneIsPassed, PassedIsChange};

use pending_laws::{names_tell_steps, priorities_are_ordered};

/// If a priority is passed, what is pending changes: each step that was queued or on the watch list still is.
pub fn passed_is_change()
    ensures { PassedIsChange }
{
    priorities_are_ordered();
}

/// A priority that no step has is passed, if the later steps stay queued and no more is on the watch list.
pub fn none_is_passed()
    ensures { NoneIsPassed }
{}

/// The priority of a step is passed, if the later steps stay queued and the step is on the watch list with what blocks it.
pub fn blocked_is_passed()
    ensures { BlockedIsPassed }
{
    names_tell_steps();
}

/// A priority is passed, if the later steps stay queued and the steps that have the priority are on the watch list.
/// The steps of each priority that is newly put on the watch list must be blocked.
pub fn more_is_passed()
    ensures { MoreIsPassed }
{}

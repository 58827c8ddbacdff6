//! Which step a plan takes by what it holds, and when it ends.

ghost use Rattle.pending_laws.specs.Taken.{FreeStepIsTaken, NoPriorityIsLeft};

use crate::pending::pending_steps_are_covered;
use plan_laws::{first_is_next, none_waits_is_done};

/// If the steps are pending, a free step that saves is the next one, if no candidate comes before it.
pub fn free_step_is_taken()
    ensures { FreeStepIsTaken }
{
    pending_steps_are_covered();
    first_is_next();
}

/// If the steps are pending, and no candidate is left, nothing is left to do.
pub fn no_priority_is_left()
    ensures { NoPriorityIsLeft }
{
    pending_steps_are_covered();
    none_waits_is_done();
}

//! What a plan holds of the steps of a sheet.

ghost use Rattle.pending_laws.specs.Pending.{PendingStepsAreCovered, StepsAreWatched, StepsPendingGoOn};

use crate::before::steps_have_been;
use crate::behind::hindered_goes_on;
use plan_laws::hindered_is_blocked;

/// If each step of a sound sheet that saves waits, or is on the watch list with what blocks it, it is so after a step, too.
/// The sheet must have room. The steps that go on and waited must still wait, at their new numbers. Those that were set
/// on the watch list must still be, or wait. If the step moves a pair of what blocks them, they must wait. The steps of new items must
/// wait.
pub fn steps_pending_go_on()
    ensures { StepsPendingGoOn }
{
    steps_have_been();
    hindered_goes_on();
}

/// Steps stay pending while answers come in, and while steps that waited are on the watch list with what blocks them.
pub fn steps_are_watched()
    ensures { StepsAreWatched }
{}

/// If the steps are pending, and no step that waits comes before all of some priorities, these priorities cover the steps.
pub fn pending_steps_are_covered()
    ensures { PendingStepsAreCovered }
{
    hindered_is_blocked();
}

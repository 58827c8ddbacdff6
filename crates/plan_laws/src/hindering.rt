//! What a plan holds of the steps of a sheet.

ghost use Rattle.plan_laws.specs.Barrier.Hindering.{PendingIsCovered, HinderedIsBlocked, PendingGoesOn};

use crate::beside::{savings_go_on, steps_are_side_by_side};
use crate::renumbering::{hindrances_go_on, kept_hindrances_go_on};
use step_laws::steps_stay_sound;

/// What hinders an edit blocks it.
pub fn hindered_is_blocked()
    ensures { HinderedIsBlocked }
{}

/// Each join or share of a sheet that saves waits, or is on the watch list with what blocks it. It is so after a step too, on
/// three conditions:
///
/// - What waits or is on the watch list of other items stays, at its new numbers.
/// - What was on the watch list for a moved pair waits again.
/// - The steps of new items wait.
pub fn pending_goes_on()
    ensures { PendingGoesOn }
{
    steps_are_side_by_side();
    savings_go_on();
    hindrances_go_on();
    kept_hindrances_go_on();
    steps_stay_sound();
}

/// Each step that saves is blocked or something waits that does not come later, where each join or share is pending, and
/// each cut that saves waits or is blocked.
pub fn pending_is_covered()
    ensures { PendingIsCovered }
{}

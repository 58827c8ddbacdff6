//! Steps after another step that were steps before it.

ghost use Rattle.pending_laws.specs.Before.{CutsHaveBeen, NoStepAddsPairs, StepsHaveBeen};

use plan_laws::{items_stay, savings_go_on, steps_come_back};
use step_laws::{steps_rearrange, steps_stay_sound};

/// No step puts a pair into the items beside one that it left, if none of them had the pair before.
pub fn no_step_adds_pairs()
    ensures { NoStepAddsPairs }
{
    steps_rearrange();
}

/// In a sound sheet, a cut after a step, of a rule that the step left, was a step before it, and saved the same.
pub fn cuts_have_been()
    ensures { CutsHaveBeen }
{
    steps_rearrange();
    items_stay();
    steps_stay_sound();
    savings_go_on();
}

/// In a sound sheet with room, each step of items that a step left was a step before it, and saved the same.
pub fn steps_have_been()
    ensures { StepsHaveBeen }
{
    cuts_have_been();
    steps_come_back();
    items_stay();
    steps_stay_sound();
    savings_go_on();
}

//! What hinders a step, after another one.

ghost use Rattle.pending_laws.specs.Behind.{GoingOnIsSideBySide, HinderedGoesOn};

use plan_laws::{
    edits_commute, hindrances_go_on, items_stay, joins_stay, kept_hindrances_go_on,
    steps_are_side_by_side,
};
use step_laws::steps_rearrange;

/// In a sheet with room, a step that goes on after another one is side by side with it. A cut is so, too.
pub fn going_on_is_side_by_side()
    ensures { GoingOnIsSideBySide }
{
    steps_are_side_by_side();
    steps_rearrange();
    items_stay();
    edits_commute();
    joins_stay();
}

/// What hinders a step that goes on after another one hinders it there, too, if that one moves no pair of it.
/// The sheet must have room.
pub fn hindered_goes_on()
    ensures { HinderedGoesOn }
{
    going_on_is_side_by_side();
    hindrances_go_on();
    kept_hindrances_go_on();
}

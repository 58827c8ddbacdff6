//! A rule that is moved to another place.

ghost use Rattle.order_laws.specs.Moving.{MovingApartKeeps, MovingRearranges};

use cascade_laws::relating_is_decided;

/// To move a rule to another place is a rearrangement, and its items are those with the rule moved.
pub fn moving_rearranges()
    ensures { MovingRearranges }
{}

/// To move a rule keeps the sheet where all that it reverses is pairs that do not meet.
pub fn moving_apart_keeps()
    ensures { MovingApartKeeps }
{
    relating_is_decided();
}

//! What it means that a step may be taken or not, as functions that do nothing.

ghost use Rattle.sheet_order.specs.Laws.{AllowedStepsAreFree, OtherStepsAreBlocked};

use order_laws::{listed_is_reversed, listed_stands_last};
use step_laws::steps_rearrange;

/// A step that may be taken is free by the answers that are held: it reverses only pairs whose selectors are answered
/// to be apart.
pub fn allowed_steps_are_free()
    ensures { AllowedStepsAreFree }
{
    listed_stands_last();
    listed_is_reversed();
    steps_rearrange();
}

/// A step that may not be taken is blocked by the answers that are held: it reverses a pair whose selectors are
/// answered otherwise, or a kept item.
pub fn other_steps_are_blocked()
    ensures { OtherStepsAreBlocked }
{
    listed_is_reversed();
}

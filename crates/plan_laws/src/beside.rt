//! What one step leaves of another one.

ghost use Rattle.plan_laws.specs.Barrier.SideBySide.{SavingsGoOn, StepsAreSideBySide, StepsComeBack};

use order_laws::unmoved_keep_their_order;
use step_laws::{cuts_rearrange, steps_rearrange, steps_weigh};

/// A step, and a join or share that takes none of its items, are side by side, where neither takes the room for one
/// more item: each may be taken after the other.
pub fn steps_are_side_by_side()
    ensures { StepsAreSideBySide }
{
    steps_rearrange();
    cuts_rearrange();
    unmoved_keep_their_order();
}

/// A join or share after an edit, of two items that the edit left, comes from one of the sheet before it, where that
/// sheet has room for one more item or the edit does not take it.
pub fn steps_come_back()
    ensures { StepsComeBack }
{}

/// A step saves the same where its rules have other numbers in another sheet.
pub fn savings_go_on()
    ensures { SavingsGoOn }
{
    steps_weigh();
}

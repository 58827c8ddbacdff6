//! The order of priorities, and priorities that name their items by numbers beside them.

ghost use Rattle.pending_laws.specs.Priorities.{FirstPriorityIsFirst, OrderKeysTellOrder, NamesTellSteps, PrioritiesAreOrdered};

use step_laws::steps_are_one_edit;

/// Of two priorities one comes before the other, or they are one.
pub fn priorities_are_ordered()
    ensures { PrioritiesAreOrdered }
{}

/// Order keys that ascend with the items tell the order of the priorities of a sheet.
pub fn order_keys_tell_order()
    ensures { OrderKeysTellOrder }
{
    priorities_are_ordered();
}

/// If no two names are alike, a priority by names is that of one step, and of one edit.
pub fn names_tell_steps()
    ensures { NamesTellSteps }
{
    steps_are_one_edit();
}

/// No step of a sheet comes before the first priority that saves at least as many bytes as the sheet has.
pub fn first_priority_is_first()
    ensures { FirstPriorityIsFirst }
{}

//! What a plan by candidates always knows of its indexed sheet.

ghost use Rattle.queue_laws.specs.Known.{AnswersMayCome, WatchedIsKnown, BlockedIsKnown, MoreIsKnown, NoneIsKnown, StartIsKnown, TakenIsKnown};

use crate::mark_names::{kept_are_renamed, marks_are_names};
use crate::passed::{blocked_is_passed, more_is_passed, none_is_passed, passed_is_change};
use crate::reindexed::taken_goes_over;
use crate::remembering::{
    more_are_remembered, one_more_is_remembered, remembered_goes_over, remembered_is_reactivated,
    untouched_is_kept,
};
use pending_laws::{pending_goes_over, pending_may_change, start_is_pending};

/// All is known if a priority before all steps is queued for each item, and nothing is on the watch list.
pub fn start_is_known()
    ensures { StartIsKnown }
{
    marks_are_names();
    start_is_pending();
}

/// What is known stays known while answers come in.
pub fn answers_may_come()
    ensures { AnswersMayCome }
{
    pending_may_change();
}

/// All stays known if a priority is passed that no step has.
pub fn none_is_known()
    ensures { NoneIsKnown }
{
    none_is_passed();
    passed_is_change();
    pending_may_change();
}

/// All stays known if the step that has the passed priority is on the watch list with what blocks it, and remembered.
pub fn blocked_is_known()
    ensures { BlockedIsKnown }
{
    blocked_is_passed();
    passed_is_change();
    pending_may_change();
    one_more_is_remembered();
}

/// All stays known if priorities are on the watch list whose steps are blocked and remembered, and a priority is passed.
/// The steps that have the passed priority must be among what is on the watch list.
pub fn more_is_known()
    ensures { MoreIsKnown }
{
    more_is_passed();
    passed_is_change();
    pending_may_change();
    more_are_remembered();
}

/// All stays known if priorities are on the watch list whose steps are blocked and remembered, while the same candidates are queued.
pub fn watched_is_known()
    ensures { WatchedIsKnown }
{
    pending_may_change();
    more_are_remembered();
}

/// All is known after a step of a sound sheet with room, too.
/// The step must not make it longer. A priority before all steps must be queued for each new item. The candidates on the watch list under moved
/// pairs must be queued again. What the step does not touch stays on the watch list.
pub fn taken_is_known()
    ensures { TakenIsKnown }
{
    kept_are_renamed();
    untouched_is_kept();
    remembered_is_reactivated();
    remembered_goes_over();
    taken_goes_over();
    pending_goes_over();
}

//! What a plan holds in code: one priority for many steps, and what is on the watch list.

ghost use Rattle.pending_laws.specs.Candidates.{FirstCandidateIsTaken, PendingGoesOver, PendingMayChange, CandidatesGoOn, NoCandidateIsDone, StartIsPending};

use crate::before::steps_have_been;
use crate::behind::hindered_goes_on;
use crate::priorities::first_priority_is_first;
use plan_laws::{first_is_next, hindered_is_blocked, none_waits_is_done};

/// If nothing is on the watch list, and each item has a priority before all steps queued for those it owns, all is pending.
pub fn start_is_pending()
    ensures { StartIsPending }
{
    first_priority_is_first();
}

/// A candidate for a step stays one after an edit of other items.
pub fn candidates_go_on()
    ensures { CandidatesGoOn }
{}

/// What is pending of a sound sheet with room goes over to the sheet after a step.
/// The items that the step left must keep their order keys and item ids. All candidates must stay queued. What is on the watch list must
/// have been so before, and the step must not touch it. Each other step that was on the watch list and goes on must be queued. The
/// steps of new owners must be queued.
pub fn pending_goes_over()
    ensures { PendingGoesOver }
{
    steps_have_been();
    hindered_goes_on();
}

/// All is still pending if other candidates stand for the steps, or the steps are on the watch list with what blocks them.
/// It is still pending while answers come in.
pub fn pending_may_change()
    ensures { PendingMayChange }
{}

/// If all is pending, a free step that saves is the next one, if no candidate comes before it.
/// Candidates name items by order keys. The priorities of items that are gone have a place in the order, too.
pub fn first_candidate_is_taken()
    ensures { FirstCandidateIsTaken }
{
    hindered_is_blocked();
    first_is_next();
}

/// If all is pending and no candidate is queued, nothing is left to do.
pub fn no_candidate_is_done()
    ensures { NoCandidateIsDone }
{
    hindered_is_blocked();
    none_waits_is_done();
}

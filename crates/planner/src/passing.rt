//! Candidates that are passed, of no step or of a blocked step, and a candidate that is queued again.

ghost use Rattle.std.specs.Prelude.{◌≡◌, ◌∷◌, ◌+◌, ◌<◌, ℕ, List, OnOk};
ghost use Rattle.std.specs.List.{Contains};
ghost use Rattle.pending_laws.specs.Candidates as pending;
ghost use Rattle.queue_laws.specs.IndexedBarriers.{IsBarred};
ghost use Rattle.step_queue.specs.Told.{candidate_told};
ghost use Rattle.step_queue.specs.Weights.{total, weight};
ghost use Rattle.obstacles.specs.Blocking.{IsBlockedBy};
ghost use Rattle.plan_laws.specs.Cover.{IsSooner};
ghost use Rattle.planner_state.specs.State.{IsIndexed, IsQueuedBy, IsState};
ghost use Rattle.step_laws.specs.Free.{Answered};
ghost use Rattle.next_step.specs.Named.{IsStepOf, NamesNone};

use crate::barring::set_barrier;
use crate::following::follow;
use crate::watching::put_watched;
use obstacles::Obstacle;
use pending_laws::{first_priority_is_first, names_tell_steps};
use planner_state::Plan;
use queue_laws::{
    barred_may_be_watched, barriers_stay, blocked_is_known, more_is_known, none_is_known,
    watched_is_known,
};
use saved_bytes::KnownLengths;
use std::alloc::{AllocError, Global};
use step_laws::Step;
use step_queue::Candidate;

/// Queues a candidate again that was taken out. The indexed sheet stays.
pub(crate) fn queue_again(plan: &mut Plan, candidate: &Candidate) -> Result<(), AllocError>
    ensures indexed { OnOk result (plan.new.indexed ≡ plan.old.indexed) }
    ensures state { OnOk result ((answers : List Answered) (source : List ℕ) → IsQueuedBy answers source plan.old (candidate_told candidate.now ∷ plan.old.candidates)
        → IsState answers source plan.new) }
{
    barriers_stay();
    plan.queue.add(*candidate)
}

/// Passes a candidate that was taken out and names no step.
/// If the plan had its state with the candidate, it has it without. Its candidates weigh less than before with the candidate.
pub(crate) fn pass_none(
    alloc: Global,
    source: &KnownLengths<'_>,
    plan: &mut Plan,
    candidate: &Candidate,
) -> Result<(), AllocError>
    requires indexed { IsIndexed source.now plan.old }
    requires none { NamesNone source.now plan.old.indexed candidate.now }
    ensures indexed { OnOk result (plan.new.indexed ≡ plan.old.indexed) }
    ensures state { OnOk result ((answers : List Answered) → IsQueuedBy answers source.now plan.old (candidate_told candidate.now ∷ plan.old.candidates)
        → IsState answers source.now plan.new) }
    ensures less { OnOk result (total plan.new.candidates < total plan.old.candidates + weight (candidate_told candidate.now)) }
{
    none_is_known();
    watched_is_known();
    barred_may_be_watched();
    first_priority_is_first();
    barriers_stay();
    follow(alloc, source, plan, candidate)
}

/// Passes a candidate that was taken out and names a join past a barrier.
/// No candidate may come before it. If the plan had its state with the candidate, it has it without. Its candidates weigh less than
/// before with the candidate.
pub(crate) fn pass_barred(
    alloc: Global,
    source: &KnownLengths<'_>,
    plan: &mut Plan,
    candidate: &Candidate,
    step: &Step,
) -> Result<(), AllocError>
    requires indexed { IsIndexed source.now plan.old }
    requires names { IsStepOf source.now plan.old.indexed candidate.now step.now }
    requires barred { IsBarred plan.old.indexed plan.old.barriers step.now }
    requires first { (l : pending.Candidate) → Contains plan.old.candidates l → IsSooner l.priority (candidate_told candidate.now).priority → ⊥ }
    ensures indexed { OnOk result (plan.new.indexed ≡ plan.old.indexed) }
    ensures state { OnOk result ((answers : List Answered) → IsQueuedBy answers source.now plan.old (candidate_told candidate.now ∷ plan.old.candidates)
        → IsState answers source.now plan.new) }
    ensures less { OnOk result (total plan.new.candidates < total plan.old.candidates + weight (candidate_told candidate.now)) }
{
    watched_is_known();
    more_is_known();
    names_tell_steps();
    barred_may_be_watched();
    first_priority_is_first();
    barriers_stay();
    follow(alloc, source, plan, candidate)
}

/// Passes a candidate that was taken out and names a blocked step.
/// If the plan had its state with the candidate, it has it without, by all answers by which the obstacle blocks the step. Its
/// candidates weigh less than before with the candidate.
fn pass_watched(
    alloc: Global,
    source: &KnownLengths<'_>,
    plan: &mut Plan,
    candidate: &Candidate,
    step: &Step,
    obstacle: &Obstacle,
) -> Result<(), AllocError>
    requires indexed { IsIndexed source.now plan.old }
    requires names { IsStepOf source.now plan.old.indexed candidate.now step.now }
    requires blocked { (answers : List Answered) × IsBlockedBy answers plan.old.indexed.items step.now obstacle.now }
    ensures indexed { OnOk result (plan.new.indexed ≡ plan.old.indexed) }
    ensures state { OnOk result ((answers : List Answered) → IsBlockedBy answers plan.old.indexed.items step.now obstacle.now
        → IsQueuedBy answers source.now plan.old (candidate_told candidate.now ∷ plan.old.candidates) → IsState answers source.now plan.new) }
    ensures less { OnOk result (total plan.new.candidates < total plan.old.candidates + weight (candidate_told candidate.now)) }
{
    blocked_is_known();
    watched_is_known();
    barred_may_be_watched();
    first_priority_is_first();
    barriers_stay();
    put_watched(plan, candidate, obstacle)?;
    follow(alloc, source, plan, candidate)
}

/// Passes a candidate that was taken out and names a blocked step. It may set a barrier.
/// If the plan had its state with the candidate, it has it without, by all answers by which the obstacle blocks the step. Its
/// candidates weigh less than before with the candidate.
pub(crate) fn pass_blocked(
    alloc: Global,
    source: &KnownLengths<'_>,
    plan: &mut Plan,
    candidate: &Candidate,
    step: &Step,
    obstacle: &Obstacle,
) -> Result<(), AllocError>
    requires indexed { IsIndexed source.now plan.old }
    requires names { IsStepOf source.now plan.old.indexed candidate.now step.now }
    requires blocked { (answers : List Answered) × IsBlockedBy answers plan.old.indexed.items step.now obstacle.now }
    ensures indexed { OnOk result (plan.new.indexed ≡ plan.old.indexed) }
    ensures state { OnOk result ((answers : List Answered) → IsBlockedBy answers plan.old.indexed.items step.now obstacle.now
        → IsQueuedBy answers source.now plan.old (candidate_told candidate.now ∷ plan.old.candidates) → IsState answers source.now plan.new) }
    ensures less { OnOk result (total plan.new.candidates < total plan.old.candidates + weight (candidate_told candidate.now)) }
{
    set_barrier(plan, step, obstacle)?;
    pass_watched(alloc, source, plan, candidate, step, obstacle)
}

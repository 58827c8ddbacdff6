//! Whether the step that a candidate names is the next one.

ghost use Rattle.std.specs.Prelude.{◌≡◌, ◌∷◌, ◌+◌, ◌<◌, ℕ, List, IfErr, IfNone, IfOk, IfSome, OnOk, length};
ghost use Rattle.std.specs.List.{Contains};
ghost use Rattle.pending_laws.specs.Candidates as pending;
ghost use Rattle.planner.specs.Following.{IsNextFound};
ghost use Rattle.planner.specs.Working.{MayEnd};
ghost use Rattle.step_queue.specs.Told.{candidate_told};
ghost use Rattle.step_queue.specs.Weights.{total, weight};
ghost use Rattle.obstacles.specs.Blocking.{IsBlockedBy};
ghost use Rattle.obstacles.specs.Bounds.{IsReached};
ghost use Rattle.obstacles.specs.declared.stopped.Stopped.TheVariants as stops;
ghost use Rattle.order_laws.specs.Edits.{Edit};
ghost use Rattle.plan_laws.specs.Cover.{IsSooner};
ghost use Rattle.plan_laws.specs.Plannable.{IsPlannable};
ghost use Rattle.planner_state.specs.State.{IsQueuedBy, IsState};
ghost use Rattle.step_laws.specs.Free.{AreAmong, IsFree};
ghost use Rattle.step_laws.specs.Steps.{HasStep, IsStep};

use crate::passing::{pass_barred, pass_blocked, pass_none, queue_again};
use crate::repeats::is_repeat_cut;
use crate::working::{answers_left, has_few_pairs};
use indexed_sheet::IndexedSheet;
use next_step::{is_barred, step_of_candidate};
use obstacles::{Obstacle, Obstacles, Stopped};
use pending_laws::{first_candidate_is_taken, priorities_are_ordered};
use planner_state::Plan;
use queue_laws::{answers_may_come, barriers_stay};
use repeat_laws::repeats_are_free;
use saved_bytes::KnownLengths;
use std::alloc::Global;
use step_laws::Step;
use step_queue::Candidate;

/// Returns what blocks a step of an indexed sheet, or `None` if it is free by the answers held afterwards.
/// It looks for nothing if the step cuts a part that its rule has again. It asks for no answer if `most_answers` are held.
fn obstacle_on<O: Obstacles>(
    obstacles: &mut O,
    indexed: &IndexedSheet,
    step: &Step,
    most_answers: Option<usize>,
) -> Result<Option<Obstacle>, Stopped>
    requires is_step { HasStep indexed.now.items step.now }
    requires plannable { (source : List ℕ) × IsPlannable source indexed.now.items }
    ensures asked { AreAmong (O.answers obstacles.old) (O.answers obstacles.new) }
    ensures same_budget { O.budget obstacles.new ≡ O.budget obstacles.old }
    ensures free { IfOk result (λ found. IfNone found ((e : Edit) → IsStep indexed.now.items step.now e → IsFree (O.answers obstacles.new) indexed.now.items e)) }
    ensures blocked { IfOk result (λ found. IfSome found (λ o. IsBlockedBy (O.answers obstacles.new) indexed.now.items step.now o)) }
    ensures stopped { IfErr result (λ e. e ≡ stops.Work → IsReached most_answers (length (O.answers obstacles.new))) }
{
    if is_repeat_cut(indexed.items(), step) {
        repeats_are_free();
        return Ok(None);
    }
    obstacles.obstacle(indexed, step, most_answers)
}

/// Returns what blocks a step of an indexed sheet, as `obstacle_on` does. It asks for no more answers than the work has room for
/// after so many steps, unless the plan may not end at this sheet. `Stopped::Work` comes only if it may.
fn obstacle_within<O: Obstacles>(
    obstacles: &mut O,
    indexed: &IndexedSheet,
    step: &Step,
    work: Option<u32>,
    taken: u32,
) -> Result<Option<Obstacle>, Stopped>
    requires is_step { HasStep indexed.now.items step.now }
    requires plannable { (source : List ℕ) × IsPlannable source indexed.now.items }
    ensures asked { AreAmong (O.answers obstacles.old) (O.answers obstacles.new) }
    ensures same_budget { O.budget obstacles.new ≡ O.budget obstacles.old }
    ensures free { IfOk result (λ found. IfNone found ((e : Edit) → IsStep indexed.now.items step.now e → IsFree (O.answers obstacles.new) indexed.now.items e)) }
    ensures blocked { IfOk result (λ found. IfSome found (λ o. IsBlockedBy (O.answers obstacles.new) indexed.now.items step.now o)) }
    ensures spent { IfErr result (λ e. e ≡ stops.Work → MayEnd work (O.answers obstacles.new) taken indexed.now.items) }
{
    let found = obstacle_on(obstacles, indexed, step, answers_left(work, taken));
    if let Err(Stopped::Work) = found
        && !has_few_pairs(indexed.items())
    {
        return obstacle_on(obstacles, indexed, step, None);
    }
    found
}

/// Returns the step that a candidate names, if it is the next one. Else it passes the candidate.
/// The candidate was taken out, and no candidate may come before it. After `None`, the candidates of the plan weigh less than
/// before with the candidate. The indexed sheet stays. `Stopped::Work` comes only if the plan may end after so many steps.
pub(crate) fn try_candidate<O: Obstacles>(
    alloc: Global,
    obstacles: &mut O,
    source: &KnownLengths<'_>,
    plan: &mut Plan,
    candidate: &Candidate,
    work: Option<u32>,
    taken: u32,
) -> Result<Option<Step>, Stopped>
    requires queued { IsQueuedBy (O.answers obstacles.old) source.now plan.old (candidate_told candidate.now ∷ plan.old.candidates) }
    requires first { (l : pending.Candidate) → Contains plan.old.candidates l → IsSooner l.priority (candidate_told candidate.now).priority → ⊥ }
    ensures asked { AreAmong (O.answers obstacles.old) (O.answers obstacles.new) }
    ensures same_budget { O.budget obstacles.new ≡ O.budget obstacles.old }
    ensures indexed { OnOk result (plan.new.indexed ≡ plan.old.indexed) }
    ensures state { OnOk result (IsState (O.answers obstacles.new) source.now plan.new) }
    ensures found { IfOk result (λ found. IfSome found (IsNextFound (O.answers obstacles.new) source.now plan.old.indexed.items)) }
    ensures less { IfOk result (λ found. IfNone found (total plan.new.candidates < total plan.old.candidates + weight (candidate_told candidate.now))) }
    ensures spent { IfErr result (λ e. e ≡ stops.Work → MayEnd work (O.answers obstacles.new) taken plan.old.indexed.items) }
    ensures ended { IfErr result (λ e. e ≡ stops.Work → plan.new.indexed ≡ plan.old.indexed) }
{
    answers_may_come();
    barriers_stay();
    first_candidate_is_taken();
    priorities_are_ordered();
    let Some(step) = step_of_candidate(alloc, &plan.indexed, &plan.tables, source, candidate)?
    else {
        pass_none(alloc, source, plan, candidate)?;
        return Ok(None);
    };
    if is_barred(&plan.indexed, &plan.barriers, &step) {
        pass_barred(alloc, source, plan, candidate, &step)?;
        return Ok(None);
    }
    match obstacle_within(obstacles, &plan.indexed, &step, work, taken)? {
        None => {
            queue_again(plan, candidate)?;
            Ok(Some(step))
        }
        Some(obstacle) => {
            pass_blocked(alloc, source, plan, candidate, &step, &obstacle)?;
            Ok(None)
        }
    }
}

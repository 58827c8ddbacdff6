//! Takes steps one after the other.

ghost use Rattle.std.specs.Prelude.{◌≡◌, IfOk, OnOk};
ghost use Rattle.planner.specs.Following.{IsNextFound};
ghost use Rattle.planner.specs.Working.{HasEnded, IfDone, IfSpent, IfTake, IsWithin, MayEnd, MayGoOn, spent_of};
ghost use Rattle.plan_laws.specs.Plannable.{IsPlannable};
ghost use Rattle.planner_state.specs.State.{IsState};
ghost use Rattle.step_laws.specs.Free.{AreAmong};
ghost use Rattle.step_laws.specs.Leading.{IsDone, Leads};

use crate::trying::try_candidate;
use crate::working::{Next, may_end, steps_left};
use css_model::Sheet;
use merge_laws::read_keeps_the_limits;
use obstacles::{Obstacles, Stopped};
use pending_laws::no_candidate_is_done;
use planner_state::Plan;
use repeat_runs::cut_repeats;
use saved_bytes::KnownLengths;
use std::alloc::{AllocError, Global};

/// A merged sheet.
#[derive(Debug, Drop)]
pub struct Merged {
    /// The sheet.
    pub sheet: Sheet,
    /// How many steps led to it.
    pub taken: u32,
    /// Whether the plan ended because its work was spent. Something may be left to do then.
    pub spent: bool,
}

/// Returns what a plan does next, after so many steps. Its work is bounded by `work`, if there is a bound. The indexed sheet stays.
fn next_step<O: Obstacles>(
    alloc: Global,
    obstacles: &mut O,
    source: &KnownLengths<'_>,
    plan: &mut Plan,
    work: Option<u32>,
    taken: u32,
) -> Result<Next, AllocError>
    requires { IsState (O.answers obstacles.old) source.now plan.old }
    ensures asked { AreAmong (O.answers obstacles.old) (O.answers obstacles.new) }
    ensures same_budget { O.budget obstacles.new ≡ O.budget obstacles.old }
    ensures indexed { OnOk result (plan.new.indexed ≡ plan.old.indexed) }
    ensures state { IfOk result (λ next. IfTake next (λ _. IsState (O.answers obstacles.new) source.now plan.new)) }
    ensures found { IfOk result (λ next. IfTake next (IsNextFound (O.answers obstacles.new) source.now plan.old.indexed.items)) }
    ensures goes_on { IfOk result (λ next. IfTake next (λ _. MayGoOn work taken plan.old.indexed.items)) }
    ensures done { IfOk result (λ next. IfDone next (IsDone (O.answers obstacles.new) source.now plan.old.indexed.items)) }
    ensures spent { IfOk result (λ next. IfSpent next (MayEnd work (O.answers obstacles.new) taken plan.old.indexed.items)) }
{
    no_candidate_is_done();
    'candidates: while let Some(candidate) = plan.take_first() {
        if may_end(obstacles, plan.indexed.items(), work, taken) {
            return Ok(Next::Spent);
        }
        match try_candidate(alloc, obstacles, source, plan, &candidate, work, taken) {
            Ok(Some(step)) => return Ok(Next::Take(step)),
            Ok(None) => {}
            Err(Stopped::Work) => return Ok(Next::Spent),
            Err(Stopped::Memory) => return Err(AllocError),
        }
    }
    Ok(Next::Done)
}

/// Returns the sheet of a plan that ended.
fn merged_of(plan: Plan, taken: u32, spent: bool) -> Merged
    ensures items { result.sheet.items ≡ plan.indexed.items }
    ensures taken { result.taken ≡ taken }
    ensures spent { result.spent ≡ spent }
{
    let sheet = plan.indexed.into_sheet();
    Merged {
        sheet,
        taken,
        spent,
    }
}

/// Merges a sheet of a source whose lengths are known, like `merge_within`. It begins with the repeats of the one rule of a sheet.
fn merge_by<O: Obstacles>(
    alloc: Global,
    obstacles: &mut O,
    source: &KnownLengths<'_>,
    sheet: Sheet,
    work: Option<u32>,
) -> Result<Merged, AllocError>
    requires plannable { IsPlannable source.now sheet.items }
    ensures asked { AreAmong (O.answers obstacles.old) (O.answers obstacles.new) }
    ensures same_budget { O.budget obstacles.new ≡ O.budget obstacles.old }
    ensures leads { IfOk result (λ m. Leads (O.answers obstacles.new) source.now m.taken sheet.items m.sheet.items) }
    ensures within { IfOk result (λ m. IsWithin work (O.answers obstacles.new) source.now m.taken sheet.items) }
    ensures ended { IfOk result (λ m. HasEnded (spent_of work m.spent) (O.answers obstacles.new) source.now m.taken m.sheet.items) }
{
    let begun = cut_repeats(alloc, source, sheet, steps_left(obstacles, work))?;
    let mut plan = Plan::new(alloc, source, begun.sheet)?;
    let mut taken = begun.taken;
    'steps: loop {
        match next_step(alloc, obstacles, source, &mut plan, work, taken)? {
            Next::Take(step) => {
                plan = plan.take(alloc, source, &step)?;
                taken += 1;
            }
            Next::Done => return Ok(merged_of(plan, taken, false)),
            Next::Spent => return Ok(merged_of(plan, taken, true)),
        }
    }
}

/// Merges a sheet with bounded work: takes steps until nothing is left to do, or until the steps that were taken and the answers
/// that are held are together `work` or more. Without a bound it does what `merge` does.
/// It ends by its bound only where the sheet can be read again: with no more than 262,144 pairs of a selector and a declaration.
/// So it takes no more than `work` steps, unless they lead to a sheet that cannot be read again.
/// For the rest it says and asks what `merge` does. Each step is the next one, whatever the bound.
#[tactic(auto, using(saved_bytes::proofs::ForCallers::short_source))]
pub fn merge_within<O: Obstacles>(
    alloc: Global,
    obstacles: &mut O,
    source: &[u8],
    sheet: Sheet,
    work: Option<u32>,
) -> Result<Merged, AllocError>
    requires plannable { IsPlannable source.now sheet.items }
    ensures asked { AreAmong (O.answers obstacles.old) (O.answers obstacles.new) }
    ensures same_budget { O.budget obstacles.new ≡ O.budget obstacles.old }
    ensures leads { IfOk result (λ m. Leads (O.answers obstacles.new) source.now m.taken sheet.items m.sheet.items) }
    ensures within { IfOk result (λ m. IsWithin work (O.answers obstacles.new) source.now m.taken sheet.items) }
    ensures ended { IfOk result (λ m. HasEnded (spent_of work m.spent) (O.answers obstacles.new) source.now m.taken m.sheet.items) }
{
    read_keeps_the_limits();
    let lengths = KnownLengths::of(alloc, source, &sheet)?;
    merge_by(alloc, obstacles, &lengths, sheet, work)
}

/// Merges a sheet: takes steps until nothing is left to do, and returns the sheet and how many steps it took.
/// Each step is the next one by the answers that are held at the end. The source must be read without a
/// fault. The parts of the sheet must be those of the source, and it must keep the limits of a sheet. All that was answered
/// stays, and the budget, also after `Err(AllocError)`.
pub fn merge<O: Obstacles>(
    alloc: Global,
    obstacles: &mut O,
    source: &[u8],
    sheet: Sheet,
) -> Result<Merged, AllocError>
    requires plannable { IsPlannable source.now sheet.items }
    ensures asked { AreAmong (O.answers obstacles.old) (O.answers obstacles.new) }
    ensures same_budget { O.budget obstacles.new ≡ O.budget obstacles.old }
    ensures leads { IfOk result (λ m. Leads (O.answers obstacles.new) source.now m.taken sheet.items m.sheet.items) }
    ensures done { IfOk result (λ m. IsDone (O.answers obstacles.new) source.now m.sheet.items) }
{
    merge_within(alloc, obstacles, source, sheet, None)
}

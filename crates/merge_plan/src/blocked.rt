//! The steps of a sheet that save bytes, each with what blocks it, if nothing is left to do in the sheet.

ghost use Rattle.std.specs.Prelude.{◌≡◌, ◌++◌, ◌∷◌, [], IfOk, OnOk, map};
ghost use Rattle.std.specs.List.{AllZip};
ghost use Rattle.merge_plan.specs.Blocked.{AreBlocked, AreBlockedSteps, IsCauseOf, NamesBlocked};
ghost use Rattle.order_laws.specs.Edits.{Edit};
ghost use Rattle.plan_laws.specs.Plannable.{IsPlannable};
ghost use Rattle.sheet_order.specs.Allowing.{Stays};
ghost use Rattle.sheet_order.specs.Laws.{answer_seen};
ghost use Rattle.sheet_order.specs.Narrow.{CanBePlanned};
ghost use Rattle.step_laws.specs.Free.{IsBlocked};
ghost use Rattle.step_laws.specs.Leading.{IsDone};
ghost use Rattle.step_laws.specs.Steps.{HasStep, IsStep};

use css_model::Sheet;
use merge_laws::read_keeps_the_limits;
use order_index::Index;
use overlap::Pairs;
use sheet_order::{Allowed, BlockCause, allowed_steps_are_free};
use std::alloc::{AllocError, Global};
use step_candidates::Candidates;
use step_laws::{Step, steps_are_one_edit};

/// What blocks a step that is blocked.
fn cause_of(
    alloc: Global,
    pairs: &mut Pairs,
    index: &Index<'_>,
    step: &Step,
) -> Result<BlockCause, AllocError>
    requires is_step { HasStep index.now step.now }
    requires planned { CanBePlanned index.now }
    requires blocked { (e : Edit) → IsStep index.now step.now e → IsBlocked (map answer_seen pairs.old.answers) index.now e }
    ensures stays { Stays pairs.old pairs.new }
    ensures cause { IfOk result (λ cause. IsCauseOf pairs.new.answers index.now step.now cause) }
{
    allowed_steps_are_free();
    let allowed = index.permitted(alloc, pairs, step)?;
    pairs.are_true();
    match allowed {
        Allowed::Blocked(cause) => Ok(cause),
        Allowed::Free => unreachable!(),
    }
}

/// Appends a step with its cause.
fn push_blocked(
    found: &mut Vec<(Step, BlockCause)>,
    step: &Step,
    cause: BlockCause,
) -> Result<(), AllocError>
    ensures { OnOk result (found.new.items ≡ found.old.items ++ (step.now, cause) ∷ []) }
{
    found.push((*step, cause))?;
    Ok(())
}

/// Some blocked steps, in their order, each with its cause.
fn blocked_of(
    alloc: Global,
    pairs: &mut Pairs,
    index: &Index<'_>,
    list: &[Step],
) -> Result<Vec<(Step, BlockCause)>, AllocError>
    requires planned { CanBePlanned index.now }
    requires blocked { AreBlocked (map answer_seen pairs.old.answers) index.now list.now }
    ensures stays { Stays pairs.old pairs.new }
    ensures are { IfOk result (λ found. AllZip (NamesBlocked pairs.new.answers index.now) list.now found.items) }
{
    let mut found = Vec::new(alloc);
    for step in list {
        let cause = cause_of(alloc, pairs, index, step)?;
        push_blocked(&mut found, step, cause)?;
    }
    Ok(found)
}

/// Returns each step of a sheet that saves bytes, in the order of steps, with what blocks it.
/// Nothing may be left to do in the sheet. What blocks a step is by the answers that are held afterwards. All that was
/// answered stays. `Err(AllocError)` if memory is short; the answers stay then too.
#[tactic(auto, using(saved_bytes::proofs::ForCallers::short_source))]
pub fn blocked_steps(
    alloc: Global,
    pairs: &mut Pairs,
    source: &[u8],
    sheet: &Sheet,
) -> Result<Vec<(Step, BlockCause)>, AllocError>
    requires plannable { IsPlannable source.now sheet.now.items }
    requires done { IsDone (map answer_seen pairs.old.answers) source.now sheet.now.items }
    ensures stays { Stays pairs.old pairs.new }
    ensures are { IfOk result (λ found. AreBlockedSteps pairs.new.answers source.now sheet.now.items found.items) }
{
    read_keeps_the_limits();
    steps_are_one_edit();
    let candidates = Candidates::new(alloc, sheet, source)?;
    let index = Index::new(alloc, sheet)?;
    blocked_of(alloc, pairs, &index, candidates.saving_steps())
}

//! Tries a step: puts its priority to those that were found, if it is one of the sheet and saves something.
//! A step that is out of the scope of the candidate, or that comes no later than the candidate, is passed over.
//! `scopes` says whether a step is in the scope.

ghost use Rattle.std.specs.Prelude.{◌≡◌, ◌↔◌, IfOk, OnOk, false};
ghost use Rattle.saved_bytes.specs.Savings.{IsSaving};
ghost use Rattle.step_laws.specs.Steps.{HasStep};
ghost use Rattle.next_step.specs.Named.{IsQueuedBeside};
ghost use Rattle.next_step.specs.Viewed.{CoversIn, Grows, IsAttempt, IsView};

pub(crate) mod scopes;

use crate::cuts::possible::is_step_of;
use crate::queue::found::Found;
use crate::queue::order::{candidate_of, is_sooner};
use crate::trying::scopes::is_beside;
use crate::view::{Attempt, View};
use saved_bytes::saved_if_apart;
use std::alloc::AllocError;
use step_laws::Step;

/// Puts the priority of a step of the sheet that saves this much to those that were found.
/// It does so if that is more than 0 and the priority comes later than the view's candidate. The step is in the scope of that candidate.
fn put_saving(
    view: &View<'_>,
    step: &Step,
    saving: u32,
    found: &mut Found,
) -> Result<(), AllocError>
    requires has { HasStep view.now.indexed.now.items step.now }
    requires beside { IsQueuedBeside view.now.indexed.now view.now.after.now step.now }
    requires saving { IsSaving view.now.source.now view.now.indexed.now.items step.now saving }
    ensures grows { OnOk result (Grows view.now found.old found.new) }
    ensures covers { OnOk result (CoversIn view.now found.new step.now) }
{
    if saving == 0 {
        return Ok(());
    }
    let candidate = candidate_of(view, step, saving);
    if !is_sooner(view.after, &candidate) {
        return Ok(());
    }
    found.put(candidate)
}

/// Puts the priority of a step, of which it is known what it saves, to those that were found.
/// It does so if the step is one of the sheet in the scope of the view's candidate and comes later than the candidate.
pub(crate) fn try_known(
    view: &View<'_>,
    step: &Step,
    saving: u32,
    found: &mut Found,
) -> Result<(), AllocError>
    requires view { IsView view.now }
    requires saving { IsSaving view.now.source.now view.now.indexed.now.items step.now saving }
    ensures grows { OnOk result (Grows view.now found.old found.new) }
    ensures covers { OnOk result (CoversIn view.now found.new step.now) }
{
    if saving == 0 {
        return Ok(());
    }
    if !is_step_of(view.alloc, view.indexed, view.tables, step, false)? {
        return Ok(());
    }
    if !is_beside(view, step) {
        return Ok(());
    }
    put_saving(view, step, saving, found)
}

/// Puts the priority of a step of the sheet to those that were found, unless the step is known to go past a barrier.
/// It does so if the step is in the scope of the view's candidate, saves something and comes later than the candidate.
fn put_priority(view: &View<'_>, attempt: &Attempt, found: &mut Found) -> Result<(), AllocError>
    requires view { IsView view.now }
    requires attempt { IsAttempt view.now attempt.now }
    requires has { HasStep view.now.indexed.now.items attempt.now.step }
    ensures grows { OnOk result (Grows view.now found.old found.new) }
    ensures covers { OnOk result (CoversIn view.now found.new attempt.now.step) }
{
    if attempt.past {
        return Ok(());
    }
    if !is_beside(view, &attempt.step) {
        return Ok(());
    }
    let saving = saved_if_apart(
        view.source,
        view.indexed.items(),
        &attempt.step,
        attempt.apart,
    );
    put_saving(view, &attempt.step, saving, found)
}

/// Puts the priority of a step as `put_priority` does, if the step is one of the sheet.
pub(crate) fn try_step(
    view: &View<'_>,
    attempt: &Attempt,
    found: &mut Found,
) -> Result<(), AllocError>
    requires view { IsView view.now }
    requires attempt { IsAttempt view.now attempt.now }
    ensures grows { OnOk result (Grows view.now found.old found.new) }
    ensures covers { OnOk result (CoversIn view.now found.new attempt.now.step) }
{
    if !is_step_of(
        view.alloc,
        view.indexed,
        view.tables,
        &attempt.step,
        attempt.part_once,
    )? {
        return Ok(());
    }
    put_priority(view, attempt, found)
}

/// Puts the priority of a cut as `try_step` does, and returns whether the sheet may have it. `Ok(false)` only if it does not.
pub(crate) fn try_cut(
    view: &View<'_>,
    attempt: &Attempt,
    found: &mut Found,
) -> Result<bool, AllocError>
    requires view { IsView view.now }
    requires attempt { IsAttempt view.now attempt.now }
    ensures grows { OnOk result (Grows view.now found.old found.new) }
    ensures covers { OnOk result (CoversIn view.now found.new attempt.now.step) }
    ensures none { IfOk result (λ has. has ≡ false → HasStep view.now.indexed.now.items attempt.now.step → ⊥) }
{
    if !is_step_of(
        view.alloc,
        view.indexed,
        view.tables,
        &attempt.step,
        attempt.part_once,
    )? {
        return Ok(false);
    }
    put_priority(view, attempt, found)?;
    Ok(true)
}

/// Puts the priorities of the joins of two items up and down, each as `try_step` does.
/// The sheet has both joins or none, so it tests only the first one.
pub(crate) fn try_both(
    view: &View<'_>,
    first: &Attempt,
    second: &Attempt,
    found: &mut Found,
) -> Result<(), AllocError>
    requires view { IsView view.now }
    requires first { IsAttempt view.now first.now }
    requires second { IsAttempt view.now second.now }
    requires alike { HasStep view.now.indexed.now.items first.now.step ↔ HasStep view.now.indexed.now.items second.now.step }
    ensures grows { OnOk result (Grows view.now found.old found.new) }
    ensures first { OnOk result (CoversIn view.now found.new first.now.step) }
    ensures second { OnOk result (CoversIn view.now found.new second.now.step) }
{
    if !is_step_of(
        view.alloc,
        view.indexed,
        view.tables,
        &first.step,
        first.part_once,
    )? {
        return Ok(());
    }
    put_priority(view, first, found)?;
    put_priority(view, second, found)
}

//! Numbers of siblings where no test looks at them: all siblings are direct neighbours.

ghost use Rattle.std.specs.Prelude.{◌≡◌, ◌≤◌, ◌<◌, ◌+◌, ◌^◌, ◌++◌, length, IfOk, OnOk};
ghost use Rattle.grid_laws.specs.Slots.{after_by, before_by, numbered, row_before};
ghost use Rattle.slot_plan.specs.Steps.{is_up};

use crate::slot::{Slot, step_for};
use slot_plan::SlotStep;
use std::alloc::{AllocError, Global};

/// Whether a step leads to an ancestor.
fn is_up(step: SlotStep) -> bool
    ensures { result ≡ is_up step }
{
    match step {
        SlotStep::UpOne | SlotStep::UpMore => true,
        SlotStep::NextTo | SlotStep::Further => false,
    }
}

/// How many siblings are before a slot, by the step into the next slot and the number there.
fn before_by(up: bool, next: u32) -> u32
    requires { next < 2 ^ 16 }
    ensures { result ≡ before_by up next }
{
    if up { 0 } else { next + 1 }
}

/// How many siblings are after a slot, by the step into it and the number after the slot that the step leaves.
fn after_by(up: bool, after: u32) -> u32
    requires { after < 2 ^ 16 }
    ensures { result ≡ after_by up after }
{
    if up { 0 } else { after + 1 }
}

/// How many siblings are before a slot, by the slots after it.
pub(crate) fn row_before(slots: &[Slot]) -> u32
    requires { length slots.now < 2 ^ 16 }
    ensures value { result ≡ row_before slots.now }
    ensures few { result ≤ length slots.now }
{
    let [slot, rest @ ..] = slots else {
        return 0;
    };
    before_by(is_up(slot.step), row_before(rest))
}

/// The slots after one that has no siblings after it, with these numbers.
#[tactic(auto, using(crate::proofs::Along::numbered_as_many))]
pub(crate) fn numbered(alloc: Global, slots: &[Slot]) -> Result<Vec<Slot>, AllocError>
    requires { length slots.now < 2 ^ 15 }
    ensures value { IfOk result (λ v. v.items ≡ numbered 0 slots.now) }
    ensures as_many { IfOk result (λ v. length v.items ≡ length slots.now) }
{
    let mut made = Vec::new(alloc);
    push_numbered(&mut made, slots, 0)?;
    Ok(made)
}

/// Adds the slots after one that has so many siblings after it.
fn push_numbered(made: &mut Vec<Slot>, slots: &[Slot], after: u32) -> Result<(), AllocError>
    requires { after + length slots.now < 2 ^ 15 }
    ensures { OnOk result (made.new.items ≡ made.old.items ++ numbered after slots.now) }
{
    let [slot, rest @ ..] = slots else {
        return Ok(());
    };
    let up = is_up(slot.step);
    let after = after_by(up, after);
    made.push(Slot {
        step: step_for(up, 1, 0),
        lays: slot.lays,
        before: row_before(rest),
        after,
    })?;
    push_numbered(made, rest, after)
}

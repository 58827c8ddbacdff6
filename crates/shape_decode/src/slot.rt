//! The slots of a shape after the first one.

ghost use Rattle.std.specs.Prelude.{◌≡◌, ◌≤◌, ◌+◌, ◌<◌, ◌^◌, suc, length, IfOk};
ghost use Rattle.grid_laws.specs.Grid.{goes_up_at, right_alone};
ghost use Rattle.grid_laws.specs.Slots.{slot_at, step_for};
ghost use Rattle.shape_decode.specs.Laid.{lays_of};
ghost use Rattle.shape_decode.specs.Read.{after_left, after_right, before_left, before_right};
ghost use Rattle.shape_decode.specs.Reading.{IsReading};

use crate::nodes::Lays;
use crate::values::number;
use css_model::Combinator;
use sibling_clauses::{Numbering, goes_up_at};
use slot_plan::SlotStep;
use std::alloc::{AllocError, Global};
use std::marker::Model;

/// A slot after the first one.
#[derive(Drop)]
pub(crate) struct Slot {
    /// The step into it.
    pub(crate) step: SlotStep,
    /// What it holds.
    pub(crate) lays: Lays,
    /// How many siblings are before it.
    pub(crate) before: u32,
    /// How many siblings are after it.
    pub(crate) after: u32,
}

impl Model for Slot {
    ghost use Rattle.grid_laws.specs.Slots.{Laid};
    ghost use Rattle.shape_decode.specs.Laid.{lays_of};

    ghost Value = { Laid };

    ghost view = { λ s. record {
      step = s.step;
      lays = lays_of s.lays;
      before = s.before;
      after = s.after;
    } };
}

/// The step into a slot, up or to a sibling, by how many siblings are before the slot that it leaves, and before this
/// one.
pub(crate) fn step_for(up: bool, from: u32, to: u32) -> SlotStep
    requires { to < 2 ^ 25 }
    ensures { result ≡ step_for up from to }
{
    if up {
        SlotStep::UpOne
    } else if from == to + 1 {
        SlotStep::NextTo
    } else {
        SlotStep::Further
    }
}

/// What a shape is read from: the values of the variables with the numbering of these, and both selectors' combinators.
#[derive(Clone, Copy)]
pub(crate) struct Reading<'a> {
    /// The value of each variable, by its number.
    pub(crate) values: &'a [bool],
    /// The numbers of the variables.
    pub(crate) g: Numbering,
    /// The combinators of the left selector.
    pub(crate) left: &'a [Combinator],
    /// The combinators of the right selector.
    pub(crate) right: &'a [Combinator],
}

/// The slot of the compounds i and j, or of one of them. So many siblings are before the slot that the step leaves.
pub(crate) fn slot_at(
    alloc: Global,
    reading: &Reading<'_>,
    lays: Lays,
    i: u32,
    j: u32,
    from: u32,
) -> Result<Slot, AllocError>
    requires reading { IsReading reading.now }
    requires row { i ≤ reading.now.g.left }
    requires column { j ≤ reading.now.g.right }
    ensures { IfOk result (λ s. s ≡ slot_at reading.now.left.now reading.now.right.now
        (before_left reading.now.g reading.now.values.now) (after_left reading.now.g reading.now.values.now)
        (before_right reading.now.g reading.now.values.now) (after_right reading.now.g reading.now.values.now) (lays_of lays) i j from) }
{
    match lays {
        Lays::LeftAlone | Lays::Together => left_slot(alloc, reading, lays, i, from),
        Lays::RightAlone => right_slot(alloc, reading, j, from),
    }
}

/// The slot of a left compound, alone or with a right one.
fn left_slot(
    alloc: Global,
    reading: &Reading<'_>,
    lays: Lays,
    i: u32,
    from: u32,
) -> Result<Slot, AllocError>
    requires reading { IsReading reading.now }
    requires row { i ≤ reading.now.g.left }
    ensures { IfOk result (λ s. s ≡ record {
      step = step_for (goes_up_at reading.now.left.now i) from (before_left reading.now.g reading.now.values.now i);
      lays = lays_of lays;
      before = before_left reading.now.g reading.now.values.now i;
      after = after_left reading.now.g reading.now.values.now i;
    }) }
{
    let before = number(reading.values, &reading.g.before_left(alloc, i)?.bits);
    let after = number(reading.values, &reading.g.after_left(alloc, i)?.bits);
    let step = step_for(goes_up_at(reading.left, i as usize), from, before);
    Ok(Slot {
        step,
        lays,
        before,
        after,
    })
}

/// The slot of a right compound alone.
fn right_slot(alloc: Global, reading: &Reading<'_>, j: u32, from: u32) -> Result<Slot, AllocError>
    requires reading { IsReading reading.now }
    requires column { j ≤ reading.now.g.right }
    ensures { IfOk result (λ s. s ≡ record {
      step = step_for (goes_up_at reading.now.right.now j) from (before_right reading.now.g reading.now.values.now j);
      lays = right_alone;
      before = before_right reading.now.g reading.now.values.now j;
      after = after_right reading.now.g reading.now.values.now j;
    }) }
{
    let before = number(reading.values, &reading.g.before_right(alloc, j)?.bits);
    let after = number(reading.values, &reading.g.after_right(alloc, j)?.bits);
    let step = step_for(goes_up_at(reading.right, j as usize), from, before);
    Ok(Slot {
        step,
        lays: Lays::RightAlone,
        before,
        after,
    })
}

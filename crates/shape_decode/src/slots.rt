//! The slots along the true nodes.

ghost use Rattle.std.specs.Prelude.{◌≡◌, ◌≤◌, ◌++◌, OnOk};
ghost use Rattle.shape_decode.specs.Read.{slots_read};
ghost use Rattle.shape_decode.specs.Reading.{IsReading};

use crate::nodes::{ahead, has_left, has_right, next_lays};
use crate::slot::{Reading, Slot, slot_at};
use std::alloc::{AllocError, Global};

/// Adds at most so many slots after that of the compounds i and j. So many siblings are before that slot.
pub(crate) fn push_slots(
    slots: &mut Vec<Slot>,
    alloc: Global,
    reading: &Reading<'_>,
    most: u32,
    i: u32,
    j: u32,
    before: u32,
) -> Result<(), AllocError>
    requires reading { IsReading reading.now }
    requires row { i ≤ reading.now.g.left }
    requires column { j ≤ reading.now.g.right }
    ensures { OnOk result (slots.new.items
        ≡ slots.old.items ++ slots_read reading.now.g reading.now.values.now reading.now.left.now reading.now.right.now most i j before) }
{
    if most == 0 {
        return Ok(());
    }
    let Some(lays) = next_lays(reading.values, reading.g, i, j) else {
        return Ok(());
    };
    let i = ahead(has_left(lays), i);
    let j = ahead(has_right(lays), j);
    let slot = slot_at(alloc, reading, lays, i, j, before)?;
    let before = slot.before;
    slots.push(slot)?;
    push_slots(slots, alloc, reading, most - 1, i, j, before)
}

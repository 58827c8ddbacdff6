//! The lists of a shape, from its slots.

ghost use Rattle.std.specs.Prelude.{◌≡◌, ◌+◌, ◌<◌, ◌^◌, ◌∷◌, ◌++◌, length, map, IfOk, OnOk};
ghost use Rattle.grid_laws.specs.Grid.{has_left, has_right};
ghost use Rattle.grid_laws.specs.Slots.{laid_at, shape_of};

use crate::nodes::{has_left, has_right};
use crate::slot::Slot;
use slot_plan::{Shape, SlotStep};
use std::alloc::{AllocError, Global};

/// The shape of slots after slot 0, with so many siblings before and after slot 0.
pub(crate) fn shape_of(
    alloc: Global,
    before: u32,
    after: u32,
    root: bool,
    child: bool,
    slots: &[Slot],
) -> Result<Shape, AllocError>
    requires { length slots.now < 2 ^ 16 }
    ensures { IfOk result (λ shape. shape ≡ shape_of before after root child slots.now) }
{
    let steps = steps_of(alloc, slots)?;
    let left = left_places(alloc, slots)?;
    let right = right_places(alloc, slots)?;
    let before = numbers_before(alloc, before, slots)?;
    let after = numbers_after(alloc, after, slots)?;
    Ok(Shape {
        steps,
        left,
        right,
        before,
        after,
        top_is_root: root,
        root_is_child: child,
    })
}

/// The steps into slots.
fn steps_of(alloc: Global, slots: &[Slot]) -> Result<Vec<SlotStep>, AllocError>
    ensures { IfOk result (λ v. v.items ≡ map (λ s. s.step) slots.now) }
{
    slots.iter().map(|slot| slot.step).collect(alloc)
}

/// How many siblings are before slot 0, and before these slots.
fn numbers_before(alloc: Global, first: u32, slots: &[Slot]) -> Result<Vec<u32>, AllocError>
    ensures { IfOk result (λ v. v.items ≡ first ∷ map (λ s. s.before) slots.now) }
{
    let mut numbers = Vec::new(alloc);
    numbers.push(first)?;
    for slot in slots {
        numbers.push(slot.before)?;
    }
    Ok(numbers)
}

/// How many siblings are after slot 0, and after these slots.
fn numbers_after(alloc: Global, first: u32, slots: &[Slot]) -> Result<Vec<u32>, AllocError>
    ensures { IfOk result (λ v. v.items ≡ first ∷ map (λ s. s.after) slots.now) }
{
    let mut numbers = Vec::new(alloc);
    numbers.push(first)?;
    for slot in slots {
        numbers.push(slot.after)?;
    }
    Ok(numbers)
}

/// The numbers of the slots with a left compound: slot 0, and those of these.
fn left_places(alloc: Global, slots: &[Slot]) -> Result<Vec<u32>, AllocError>
    requires { length slots.now < 2 ^ 16 }
    ensures { IfOk result (λ v. v.items ≡ 0 ∷ laid_at has_left 1 slots.now) }
{
    let mut places = Vec::new(alloc);
    places.push(0)?;
    push_left(&mut places, slots, 1)?;
    Ok(places)
}

/// Adds the numbers of those slots with a left compound. The first slot has this number.
fn push_left(places: &mut Vec<u32>, slots: &[Slot], place: u32) -> Result<(), AllocError>
    requires { place + length slots.now < 2 ^ 17 }
    ensures { OnOk result (places.new.items ≡ places.old.items ++ laid_at has_left place slots.now) }
{
    let [slot, rest @ ..] = slots else {
        return Ok(());
    };
    if has_left(slot.lays) {
        places.push(place)?;
    }
    push_left(places, rest, place + 1)
}

/// The numbers of the slots with a right compound: slot 0, and those of these.
fn right_places(alloc: Global, slots: &[Slot]) -> Result<Vec<u32>, AllocError>
    requires { length slots.now < 2 ^ 16 }
    ensures { IfOk result (λ v. v.items ≡ 0 ∷ laid_at has_right 1 slots.now) }
{
    let mut places = Vec::new(alloc);
    places.push(0)?;
    push_right(&mut places, slots, 1)?;
    Ok(places)
}

/// Adds the numbers of those slots with a right compound. The first slot has this number.
fn push_right(places: &mut Vec<u32>, slots: &[Slot], place: u32) -> Result<(), AllocError>
    requires { place + length slots.now < 2 ^ 17 }
    ensures { OnOk result (places.new.items ≡ places.old.items ++ laid_at has_right place slots.now) }
{
    let [slot, rest @ ..] = slots else {
        return Ok(());
    };
    if has_right(slot.lays) {
        places.push(place)?;
    }
    push_right(places, rest, place + 1)
}

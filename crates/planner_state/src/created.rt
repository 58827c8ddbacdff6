//! The items that a step makes.

ghost use Rattle.std.specs.Prelude.{◌≡◌, IfOk, IfSome, true};
ghost use Rattle.planner_state.specs.Created.{AreCreated, IsCreatedAt};

use indexed_sheet::{IndexedSheet, Mark};
use smallvec::SmallVec;
use std::alloc::{AllocError, Global};
use step_laws::Step;
use step_savings::items_of;

/// Returns `true` only if the item of this number has this item id.
fn is_created_at(marks: &[Mark], number: u32, item_id: u32) -> bool
    ensures { result ≡ true → IsCreatedAt marks.now number item_id }
{
    match marks.get(number as usize) {
        Some(mark) => mark.item_id == item_id,
        None => false,
    }
}

/// Looks near the items of a step for the item of this item id, and returns its number.
fn place_of(marks: &[Mark], step: &Step, item_id: u32) -> Option<u32>
    ensures { IfSome result (λ n. IsCreatedAt marks.now n item_id) }
{
    let (first, last) = items_of(step);
    if is_created_at(marks, first, item_id) {
        return Some(first);
    }
    if is_created_at(marks, last, item_id) {
        return Some(last);
    }
    let before = last.saturating_sub(1);
    if is_created_at(marks, before, item_id) {
        return Some(before);
    }
    let behind = last.saturating_add(1);
    if is_created_at(marks, behind, item_id) {
        return Some(behind);
    }
    None
}

/// Returns numbers that contain those of all items created at `next` or later, or `None`.
/// It looks only near the items of a step. `None` says nothing.
pub(crate) fn created_near(
    alloc: Global,
    indexed: &IndexedSheet,
    next: u32,
    step: &Step,
) -> Result<Option<SmallVec<u32, 4>>, AllocError>
    ensures { IfOk result (λ created. IfSome created (λ numbers. AreCreated indexed.now next numbers.items)) }
{
    let marks = indexed.marks();
    let end = indexed.next();
    let mut numbers = SmallVec::new(alloc);
    let mut item_id = next;
    'item_ids: while item_id < end {
        match place_of(marks, step, item_id) {
            Some(number) => numbers.push(number)?,
            None => return Ok(None),
        }
        item_id += 1;
    }
    Ok(Some(numbers))
}

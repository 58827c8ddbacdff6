//! A rule at another place of its sheet.

ghost use Rattle.std.specs.Prelude.{◌≡◌, ◌<◌, Some, IfOk, length, slice_get};
ghost use Rattle.css_model.specs.declared.sheet.Item as declared;
ghost use Rattle.order_laws.specs.Moving.{item_moved};

use css_model::{Item, Sheet};
use std::alloc::AllocError;

/// The items once one of them is moved.
fn moved_item(items: Vec<Item>, from: usize, to: usize) -> Result<Vec<Item>, AllocError>
    requires from { from < length items.items }
    requires to { to < length items.items }
    ensures { IfOk result (λ new. (item : declared.Item) → slice_get items.items from ≡ Some item → new.items ≡ item_moved items.items from to item) }
{
    let mut moved = items;
    let item = moved.remove(from);
    moved.insert(to, item)?;
    Ok(moved)
}

/// The sheet with an item moved from one number to another, both from 0. The sheet is a copy, in the memory of the
/// allocators of the sheet's lists. `AllocError` where memory runs out.
///
/// | `from` is | the item is then |
/// |---|---|
/// | less than `to` | directly after the item of number `to` |
/// | greater than `to` | directly before the item of number `to` |
/// | equal to `to` | where it was |
pub fn move_rule(sheet: &Sheet, from: u32, to: u32) -> Result<Sheet, AllocError>
    requires from { from < length sheet.now.items }
    requires to { to < length sheet.now.items }
    ensures { IfOk result (λ new. (item : declared.Item) → slice_get sheet.now.items from ≡ Some item → new.items ≡ item_moved sheet.now.items from to item) }
{
    let Sheet { items } = sheet.copy()?;
    let items = moved_item(items, from as usize, to as usize)?;
    Ok(Sheet { items })
}

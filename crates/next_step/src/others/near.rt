//! The number of an item by its order key. The likely places come first.

ghost use Rattle.std.specs.Prelude.{◌≡◌, ◌≤◌, IfNone, IfSome, length, true};
ghost use Rattle.css_model.specs.Sheets.Limits.{max_items};
ghost use Rattle.indexed_sheet.specs.MarkList.{IsOrderKeyAt, LacksOrderKey};

use indexed_sheet::IndexedSheet;

/// Whether the item of this number is known to have an order key.
fn has_order_key(indexed: &IndexedSheet, number: u32, order_key: u64) -> bool
    ensures { result ≡ true → IsOrderKeyAt indexed.now.marks order_key number }
{
    match indexed.marks().get(number as usize) {
        Some(mark) => mark.order_key == order_key,
        None => false,
    }
}

/// How many bits the gap between the order keys of two neighbours has at first.
const GAP_BITS: u32 = 48;

/// The order key of the item of this number, or 0 if there is no such item.
fn order_key_at(indexed: &IndexedSheet, number: u32) -> u64 {
    match indexed.marks().get(number as usize) {
        Some(mark) => mark.order_key,
        None => 0,
    }
}

/// A guess at the place of the item with an order key: right if no item between it and the one of this number is gone.
fn first_place(indexed: &IndexedSheet, number: u32, order_key: u64) -> u32 {
    let steps = order_key.saturating_sub(order_key_at(indexed, number)) >> GAP_BITS;
    number.saturating_add(steps as u32)
}

/// The number of the item with an order key, if there is one.
/// It looks first right after the item of the number `last`, and then where the item is if none between the two is gone.
fn number_near(indexed: &IndexedSheet, last: u32, order_key: u64) -> Option<u32>
    requires { length indexed.now.items ≤ max_items }
    ensures some { IfSome result (IsOrderKeyAt indexed.now.marks order_key) }
    ensures none { IfNone result (LacksOrderKey indexed.now.marks order_key) }
{
    let next = last.saturating_add(1);
    if has_order_key(indexed, next, order_key) {
        return Some(next);
    }
    let first = first_place(indexed, last, order_key);
    if has_order_key(indexed, first, order_key) {
        return Some(first);
    }
    indexed.number_of(order_key)
}

/// The number of the item with an order key, if there is one.
/// It looks first near `last`, the number of the last item that was found, and renews that.
pub(crate) fn number_behind(indexed: &IndexedSheet, last: &mut u32, order_key: u64) -> Option<u32>
    requires { length indexed.now.items ≤ max_items }
    ensures some { IfSome result (IsOrderKeyAt indexed.now.marks order_key) }
    ensures none { IfNone result (LacksOrderKey indexed.now.marks order_key) }
{
    let found = number_near(indexed, *last, order_key);
    if let Some(number) = found {
        *last = number;
    }
    found
}

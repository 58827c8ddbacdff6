//! The part of a sheet that a step changes.

ghost use Rattle.std.specs.Prelude.{◌≡◌, ◌≤◌, ◌<◌, [], length, map, slice_range};
ghost use Rattle.std.specs.Option.{ForSome};
ghost use Rattle.css_model.specs.Sheets.KeptItems.{kept_items};
ghost use Rattle.item_masks.specs.Masks.{item_mask};
ghost use Rattle.window_order.specs.Between.{AreBetween};
ghost use Rattle.window_order.specs.Left.{Covers, items_of};

use crate::left::Left;
use css_model::Item;
use indexed_sheet::IndexedSheet;
use item_masks::ItemMask;

/// The part of a sheet that a step changes, from its first to its last item. It has three parts: the first item, if
/// there is one, the items between, and the last item. It also has what takes the places of the first and the last item
/// afterwards. The numbers are those of items, from 0.
#[derive(Clone, Copy)]
pub struct Window<'a> {
    /// The items of the sheet.
    pub items: &'a [Item],
    /// Their masks.
    pub masks: &'a [ItemMask],
    /// Where it begins.
    pub start: usize,
    /// Where the middle part begins.
    pub middle: usize,
    /// The last item.
    pub last: usize,
    /// What takes the place of the first item.
    pub first_left: Left<'a>,
    /// What takes the place of the last item.
    pub last_left: Left<'a>,
    /// A mask that meets those of all pairs in what takes these places.
    pub left_mask: ItemMask,
    /// The sheet while it is planned, if it is: it may know that no other rule has a pair of a rule.
    pub planned: Option<&'a IndexedSheet>,
    ghost masked: { masks.now ≡ map item_mask items.now },
    ghost start_first: { start ≤ middle },
    ghost middle_first: { middle ≤ last },
    ghost within: { last < length items.now },
    ghost between: { AreBetween items.now start middle last },
    ghost first_plain: { kept_items (slice_range items.now start middle) ≡ [] },
    ghost left_plain: { kept_items (items_of first_left) ≡ [] },
    ghost first_covered: { Covers left_mask (items_of first_left) },
    ghost last_covered: { Covers left_mask (items_of last_left) },
    ghost same_items: { ForSome planned (λ b. b.now.items ≡ items.now) },
}

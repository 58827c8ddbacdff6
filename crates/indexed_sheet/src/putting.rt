//! Takes an item out of a marked sheet, and puts others instead.

ghost use Rattle.std.specs.Prelude.{◌≡◌, ◌<◌, ◌+◌, ◌^◌, IfOk, IfSome, Some, length, map, slice_get, slice_set};
ghost use Rattle.css_model.specs.declared.sheet.Item.TheVariants as item;
ghost use Rattle.css_model.specs.Sheets.RuleParts.{RuleParts};
ghost use Rattle.indexed_sheet.specs.LeftMasks.{masks_in};
ghost use Rattle.indexed_sheet.specs.Marking.{AreRenewed, HasOrderKeyBefore};
ghost use Rattle.indexed_sheet.specs.Putting.{put_at, items_in, placeholder};
ghost use Rattle.item_masks.specs.Masks.{item_mask};

use crate::left_masks::LeftMasks;
use crate::marked::MarkedSheet;
use crate::parts::Left;
use css_model::{Item, Piece, Rule};
use item_masks::ItemMask;
use spare_list::SpareList;
use std::alloc::AllocError;

/// Returns an empty kept block.
fn empty_item() -> Item
    ensures { result ≡ placeholder }
{
    Item::KeptBlock(Piece { start: 0, end: 0 })
}

/// Returns the mask of an empty kept block.
fn empty_mask() -> ItemMask
    ensures { result ≡ item_mask placeholder }
{
    ItemMask {
        families: u64::MAX,
        selectors: 0,
    }
}

/// Takes out the rule of this number. An empty kept block is there instead.
fn lift_rule(items: &mut SpareList<Item>, number: u32) -> Rule
    requires { (r : RuleParts) × (slice_get items.old number ≡ Some (item.Rule r)) }
    ensures rule { slice_get items.old number ≡ Some (item.Rule result) }
    ensures items { items.new ≡ slice_set items.old number placeholder }
{
    match items.set(number as usize, empty_item()) {
        Item::Rule(rule) => rule,
        _ => unreachable!(),
    }
}

/// Puts the mask of an empty kept block instead of the one of this number.
fn lift_mask(masks: &mut SpareList<ItemMask>, number: u32)
    requires { number < length masks.old }
    ensures { masks.new ≡ slice_set masks.old number (item_mask placeholder) }
{
    masks.set(number as usize, empty_mask());
}

/// Puts the masks of what a step leaves instead of the one of this number.
fn put_masks(
    mut masks: SpareList<ItemMask>,
    number: u32,
    left: LeftMasks,
) -> Result<SpareList<ItemMask>, AllocError>
    requires { number < length masks }
    ensures { IfOk result (λ new. new ≡ put_at number (masks_in left) masks) }
{
    let number = number as usize;
    match left {
        LeftMasks::Nothing => {
            masks.remove(number, empty_mask());
            Ok(masks)
        }
        LeftMasks::One(mask) => {
            masks.set(number, mask);
            Ok(masks)
        }
        LeftMasks::Two(above, below) => {
            masks.set(number, below);
            masks.insert(number, above)?;
            Ok(masks)
        }
    }
}

/// Puts what a step leaves instead of the item of this number.
fn put_items(
    mut items: SpareList<Item>,
    number: u32,
    left: Left,
) -> Result<SpareList<Item>, AllocError>
    requires { number < length items }
    ensures { IfOk result (λ new. new ≡ put_at number (items_in left) items) }
{
    let number = number as usize;
    match left {
        Left::Nothing => {
            items.remove(number, empty_item());
            Ok(items)
        }
        Left::One(rule) => {
            items.set(number, Item::Rule(rule));
            Ok(items)
        }
        Left::Two(above, below) => {
            items.set(number, Item::Rule(below));
            items.insert(number, Item::Rule(above))?;
            Ok(items)
        }
    }
}

impl MarkedSheet {
    /// Returns the sheet with an empty kept block instead of the rule of this number, and the rule.
    pub(crate) fn lift(self, number: u32) -> (MarkedSheet, Rule)
        requires { (r : RuleParts) × (slice_get self.items number ≡ Some (item.Rule r)) }
        ensures rule { slice_get self.items number ≡ Some (item.Rule result.1) }
        ensures items { result.0.items ≡ slice_set self.items number placeholder }
        ensures marks { result.0.marks ≡ self.marks }
        ensures next { result.0.next ≡ self.next }
        ensures as_many { length self.marks ≡ length self.items }
    {
        let MarkedSheet {
            mut items,
            marks,
            mut masks,
        } = self;
        let rule = lift_rule(&mut items, number);
        lift_mask(&mut masks, number);
        let indexed = MarkedSheet {
            items,
            marks,
            masks,
        };
        (indexed, rule)
    }

    /// Returns the sheet with what a step leaves instead of the item of this number.
    pub(crate) fn put(
        self,
        number: u32,
        left: Left,
        left_masks: LeftMasks,
    ) -> Result<MarkedSheet, AllocError>
        requires at { number < length self.items }
        requires room { 1 < length (items_in left) → (0 < number) × HasOrderKeyBefore self.marks number }
        requires item_ids { self.next + 2 < 2 ^ 32 }
        requires masks { masks_in left_masks ≡ map item_mask (items_in left) }
        ensures items { IfOk result (λ b. b.items ≡ put_at number (items_in left) self.items) }
        ensures marks { IfOk result (λ b. AreRenewed self.marks b.marks self.next number (length (items_in left))) }
        ensures next { IfOk result (λ b. b.next ≡ self.next + length (items_in left)) }
    {
        let MarkedSheet {
            items,
            marks,
            masks,
        } = self;
        let marks = marks.put(number, &left)?;
        let masks = put_masks(masks, number, left_masks)?;
        let items = put_items(items, number, left)?;
        Ok(MarkedSheet {
            items,
            marks,
            masks,
        })
    }
}

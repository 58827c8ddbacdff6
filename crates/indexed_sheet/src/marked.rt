//! A sheet with the marks and the masks of its items.

ghost use Rattle.std.specs.Prelude.{◌≡◌, ◌≤◌, ◌<◌, IfOk, IfSome, IfNone, OnErr, Some, length, map, slice_get, true};
ghost use Rattle.css_model.specs.Sheets.Limits.{max_items};
ghost use Rattle.indexed_sheet.specs.MarkList.{AreMarks, Ascends, IsOrderKeyAt, IsOldestBelow, LacksOrderKey};
ghost use Rattle.css_model.specs.declared.sheet.Item.{Item};
ghost use Rattle.item_masks.specs.Masks.{item_mask};

use crate::marks::{Mark, Marks};
use css_model::{Item, Sheet};
use item_masks::{ItemMask, item_masks};
use spare_list::SpareList;
use std::alloc::{AllocError, Global};
use std::marker::Model;

/// A sheet with a mark and a mask for each item.
#[derive(Debug, Drop)]
pub(crate) struct MarkedSheet {
    pub(crate) items: SpareList<Item>,
    pub(crate) marks: Marks,
    pub(crate) masks: SpareList<ItemMask>,
}

impl Model for MarkedSheet {
    ghost use Rattle.std.specs.Prelude.{◌≡◌, length, map};
    ghost use Rattle.indexed_sheet.specs.IndexedParts.{IndexedParts};
    ghost use Rattle.item_masks.specs.Masks.{item_mask};

    ghost Value = { IndexedParts };

    ghost view = { λ b. record { items = b.items; marks = b.marks.list; next = b.marks.next } };

    ghost invariant = { λ b. (length b.marks.list ≡ length b.items) × (b.masks ≡ map item_mask b.items) };
}

/// Returns the number, from 0, of the mark with this order key, or `Err` if no mark has it.
fn find_order_key(marks: &[Mark], order_key: u64) -> Result<usize, usize>
    requires { Ascends marks.now }
    ensures within { IfOk result (λ n. n < length marks.now) }
    ensures found { IfOk result (IsOrderKeyAt marks.now order_key) }
    ensures absent { OnErr result (LacksOrderKey marks.now order_key) }
{
    marks.binary_search_by_key(&order_key, |mark| mark.order_key)
}

impl MarkedSheet {
    /// Returns the sheet with new marks. The next item id is the number of items.
    pub(crate) fn new(alloc: Global, sheet: Sheet) -> Result<MarkedSheet, AllocError>
        requires { length sheet.items ≤ max_items }
        ensures items { IfOk result (λ b. b.items ≡ sheet.items) }
        ensures next { IfOk result (λ b. b.next ≡ length sheet.items) }
    {
        let marks = Marks::new(alloc, sheet.items.len() as u32)?;
        let masks = SpareList::new(item_masks(alloc, &sheet.items)?);
        let Sheet { items } = sheet;
        Ok(MarkedSheet {
            items: SpareList::new(items),
            marks,
            masks,
        })
    }

    /// Returns the items.
    pub(crate) fn items(&self) -> &[Item]
        ensures { result.now ≡ self.now.items }
    {
        self.items.as_slice()
    }

    /// Returns the masks of the items, in the order of the items.
    pub(crate) fn masks(&self) -> &[ItemMask]
        ensures { result.now ≡ map item_mask self.now.items }
    {
        self.masks.as_slice()
    }

    /// Returns the sheet without its marks.
    pub(crate) fn into_sheet(self) -> Sheet
        ensures { result.items ≡ self.items }
    {
        let MarkedSheet {
            items,
            marks,
            masks,
        } = self;
        drop(marks);
        drop(masks);
        let items = items.into_vec();
        Sheet { items }
    }

    /// Returns the marks of the items, in the order of the items.
    /// Order keys ascend. Item ids differ, and each is below `next`.
    pub(crate) fn marks(&self) -> &[Mark]
        ensures marks { result.now ≡ self.now.marks }
        ensures are_marks { AreMarks self.now.marks self.now.next }
        ensures as_many { length self.now.marks ≡ length self.now.items }
    {
        self.marks.list()
    }

    /// Returns the item id of the next item that is put in. All item ids are below it.
    pub(crate) fn next(&self) -> u32
        ensures next { result ≡ self.now.next }
        ensures are_marks { AreMarks self.now.marks self.now.next }
        ensures as_many { length self.now.marks ≡ length self.now.items }
    {
        self.marks.next()
    }

    /// Returns the mark of the item of this number.
    pub(crate) fn mark(&self, number: u32) -> Mark
        requires { number < length self.now.items }
        ensures { slice_get self.now.marks number ≡ Some result }
    {
        self.marks.list()[number as usize]
    }

    /// Returns `true` only if all items below the item of this number were created later.
    pub(crate) fn is_oldest_below(&self, number: u32) -> bool
        requires { number < length self.now.items }
        ensures { result ≡ true → IsOldestBelow self.now.marks number }
    {
        self.marks.is_oldest_below(number)
    }

    /// Returns the mask of the item of this number.
    pub(crate) fn mask(&self, number: u32) -> ItemMask
        requires { number < length self.now.items }
        ensures { (item : Item) → slice_get self.now.items number ≡ Some item → result ≡ item_mask item }
    {
        self.masks()[number as usize]
    }

    /// Returns the number of the item with this order key, or `None` if no item has it.
    pub(crate) fn number_of(&self, order_key: u64) -> Option<u32>
        requires { length self.now.items ≤ max_items }
        ensures some { IfSome result (IsOrderKeyAt self.now.marks order_key) }
        ensures none { IfNone result (LacksOrderKey self.now.marks order_key) }
    {
        match find_order_key(self.marks(), order_key) {
            Ok(number) => Some(number as u32),
            Err(_) => None,
        }
    }
}

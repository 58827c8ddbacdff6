//! The marks that identify the items of an indexed sheet.

ghost use Rattle.std.specs.Prelude.{◌≡◌, ◌≤◌, ◌<◌, ◌+◌, ◌^◌, ℕ, IfOk, Some, length, slice_get, true};
ghost use Rattle.css_model.specs.Sheets.Limits.{max_items};
ghost use Rattle.indexed_sheet.specs.MarkList.{AreMarks, IsOldestBelow};
ghost use Rattle.indexed_sheet.specs.Marking.{AreRenewed, HasOrderKeyBefore};
ghost use Rattle.indexed_sheet.specs.Putting.{items_in};

use crate::parts::Left;
use spare_list::SpareList;
use std::alloc::{AllocError, Global};
use std::marker::Model;

/// How far apart the order keys of neighbours are at first.
const GAP: u64 = 0x1_0000_0000_0000;

/// The mark of an item of an indexed sheet.
/// Order keys ascend with the numbers of the items. No two items of an indexed sheet have the same item id. An item keeps its mark after
/// each step that leaves it. An item that a step makes has an item id that no item of the indexed sheet had before.
#[derive(Clone, Copy, Debug, PartialEq, Eq)]
pub struct Mark {
    /// The place of the item among the others.
    pub order_key: u64,
    /// When the item was put in. An item that a later step makes has a higher item id.
    pub item_id: u32,
}

/// The marks of some items, in their order.
#[derive(Debug, Drop)]
pub(crate) struct Marks {
    list: SpareList<Mark>,
    next: u32,
    /// If an item was created before this item id, all items below it were created later than it.
    first: u32,
}

impl Model for Marks {
    ghost use Rattle.std.specs.Prelude.{◌≤◌};
    ghost use Rattle.indexed_sheet.specs.MarkList.{MarkList, AreFirst, AreMarks};

    ghost Value = { MarkList };

    ghost view = { λ m. record { list = m.list; next = m.next } };

    ghost invariant = { λ m. AreMarks m.list m.next × (m.first ≤ m.next) × AreFirst m.list m.first };
}

impl Marks {
    /// Returns marks of `count` items. The next item id is `count`.
    pub(crate) fn new(alloc: Global, count: u32) -> Result<Marks, AllocError>
        requires { count ≤ max_items }
        ensures length { IfOk result (λ marks. length marks.list ≡ count) }
        ensures next { IfOk result (λ marks. marks.next ≡ count) }
    {
        let mut list = Vec::with_capacity(alloc, count as usize)?;
        for item_id in 0..count {
            let order_key = u64::from(item_id) * GAP;
            list.push(Mark { order_key, item_id })?;
        }
        Ok(Marks {
            list: SpareList::new(list),
            next: count,
            first: count,
        })
    }

    /// Returns the marks.
    pub(crate) fn list(&self) -> &[Mark]
        ensures list { result.now ≡ self.now.list }
        ensures are_marks { AreMarks self.now.list self.now.next }
    {
        self.list.as_slice()
    }

    /// Returns the item id of the next mark.
    pub(crate) fn next(&self) -> u32
        ensures next { result ≡ self.now.next }
        ensures are_marks { AreMarks self.now.list self.now.next }
    {
        self.next
    }

    /// Returns `true` only if all items below the item of this number were created later.
    pub(crate) fn is_oldest_below(&self, number: u32) -> bool
        requires { number < length self.now.list }
        ensures { result ≡ true → IsOldestBelow self.now.list number }
    {
        mark_at(&self.list, number).item_id < self.first
    }

    /// Returns the marks without the one of this number.
    fn without(self, number: u32) -> Marks
        requires { number < length self.list }
        ensures marks { AreRenewed self.list result.list self.next number 0 }
        ensures next { result.next ≡ self.next }
    {
        let Marks {
            mut list,
            next,
            first,
        } = self;
        let filler = Mark {
            order_key: 0,
            item_id: 0,
        };
        list.remove(number as usize, filler);
        Marks { list, next, first }
    }

    /// Returns the marks with a new one instead of the one of this number. The new one has the same order key.
    fn renewed(self, number: u32) -> Marks
        requires at { number < length self.list }
        requires item_ids { self.next + 1 < 2 ^ 32 }
        ensures marks { AreRenewed self.list result.list self.next number 1 }
        ensures next { result.next ≡ self.next + 1 }
    {
        let Marks {
            mut list,
            next,
            first,
        } = self;
        let order_key = mark_at(&list, number).order_key;
        let mark = Mark {
            order_key,
            item_id: next,
        };
        list.set(number as usize, mark);
        Marks {
            list,
            next: next + 1,
            first,
        }
    }

    /// Returns the marks with two new ones instead of the one of this number.
    fn split(self, number: u32) -> Result<Marks, AllocError>
        requires at { number < length self.list }
        requires behind { 0 < number }
        requires room { HasOrderKeyBefore self.list number }
        requires item_ids { self.next + 2 < 2 ^ 32 }
        ensures marks { IfOk result (λ marks. AreRenewed self.list marks.list self.next number 2) }
        ensures next { IfOk result (λ marks. marks.next ≡ self.next + 2) }
    {
        let Marks {
            mut list,
            next,
            first,
        } = self;
        let above = mark_at(&list, number - 1).order_key;
        let below = mark_at(&list, number).order_key;
        let order_key = middle(above, below);
        let mark = Mark {
            order_key: below,
            item_id: next,
        };
        list.set(number as usize, mark);
        let new = Mark {
            order_key,
            item_id: next + 1,
        };
        list.insert(number as usize, new)?;
        Ok(Marks {
            list,
            next: next + 2,
            first,
        })
    }

    /// Returns the marks with new ones for the rules that a step puts instead of the item of this number.
    pub(crate) fn put(self, number: u32, left: &Left) -> Result<Marks, AllocError>
        requires at { number < length self.list }
        requires room { 1 < length (items_in left.now) → (0 < number) × HasOrderKeyBefore self.list number }
        requires item_ids { self.next + 2 < 2 ^ 32 }
        ensures marks { IfOk result (λ marks. AreRenewed self.list marks.list self.next number (length (items_in left.now))) }
        ensures next { IfOk result (λ marks. marks.next ≡ self.next + length (items_in left.now)) }
    {
        match left {
            Left::Nothing => Ok(self.without(number)),
            Left::One(_) => Ok(self.renewed(number)),
            Left::Two(_, _) => self.split(number),
        }
    }
}

/// Returns the mark of this number.
fn mark_at(list: &SpareList<Mark>, number: u32) -> Mark
    requires { number < length list.now }
    ensures { slice_get list.now number ≡ Some result }
{
    list.as_slice()[number as usize]
}

/// Returns an order key between two others.
fn middle(above: u64, below: u64) -> u64
    requires { above + 1 < below }
    ensures more { above < result }
    ensures less { result < below }
{
    above + (below - above) / 2
}

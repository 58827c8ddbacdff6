//! What is reversed in the part of a sheet that a step changes.

ghost use Rattle.std.specs.Prelude.{◌≡◌, ◌↔◌, ◌-◌, ◌≤◌, IsTrue, Some, true, map, slice_get};
ghost use Rattle.css_model.specs.declared.sheet.Item as declared;
ghost use Rattle.css_model.specs.Cascade.Order.{HasPair, IsBefore, IsBeforeKept};
ghost use Rattle.css_model.specs.Sheets.KeptItems.{is_kept, kept_before};
ghost use Rattle.item_masks.specs.Masks.{item_mask};
ghost use Rattle.order_laws.specs.Reversing.{Differ};
ghost use Rattle.window_order.specs.Left as left;
ghost use Rattle.window_order.specs.Orders as orders;
ghost use Rattle.window_order.specs.Reversed as reversed;

use crate::ends::{PairEnds, always_same, comes_before};
use crate::kept::{KeptEnds, always_same_kept, has_other_place};
use crate::masked::{order_by_masks, stands_by_masks};
use crate::order::PairOrder;
use crate::pair::PairRef;
use crate::window::Window;
use css_model::Item;
use item_masks::ItemMask;

impl<'a> Window<'a> {
    /// The first item of the window, if there is one.
    pub(crate) fn first(&self) -> &'a [Item]
        ensures { result.now ≡ reversed.first_of self.now }
    {
        &self.items[self.start..self.middle]
    }

    /// The items between the first and the last item of the window.
    pub(crate) fn between(&self) -> &'a [Item]
        ensures { result.now ≡ reversed.middle_of self.now }
    {
        &self.items[self.middle..self.last]
    }

    /// The last item of the window.
    pub(crate) fn last(&self) -> &'a [Item]
        ensures { result.now ≡ reversed.last_of self.now }
    {
        &self.items[self.last..self.last + 1]
    }

    /// The items after the window.
    fn behind(&self) -> &'a [Item]
        ensures { result.now ≡ reversed.behind_of self.now }
    {
        &self.items[self.last + 1..]
    }

    /// The mask of the first item, if there is one.
    pub(crate) fn first_masks(&self) -> &'a [ItemMask]
        ensures { result.now ≡ map item_mask (reversed.first_of self.now) }
    {
        &self.masks[self.start..self.middle]
    }

    /// The mask of the last item.
    pub(crate) fn last_masks(&self) -> &'a [ItemMask]
        ensures { result.now ≡ map item_mask (reversed.last_of self.now) }
    {
        &self.masks[self.last..self.last + 1]
    }

    /// The masks of the items between.
    pub(crate) fn between_masks(&self) -> &'a [ItemMask]
        ensures { result.now ≡ map item_mask (reversed.middle_of self.now) }
    {
        &self.masks[self.middle..self.last]
    }

    /// The masks of the items after the window.
    fn behind_masks(&self) -> &'a [ItemMask]
        ensures { result.now ≡ map item_mask (reversed.behind_of self.now) }
    {
        &self.masks[self.last + 1..]
    }

    /// Whether a pair is after the window.
    pub(crate) fn stands_behind(&self, p: &PairRef<'_>) -> bool
        ensures { IsTrue result ↔ HasPair (reversed.behind_of self.now) p.now }
    {
        stands_by_masks(self.behind(), self.behind_masks(), p)
    }

    /// How two pairs are ordered in the items between.
    fn order_between(&self, p: &PairRef<'_>, q: &PairRef<'_>) -> PairOrder
        ensures { orders.IsOrder (reversed.middle_of self.now) p.now q.now result }
    {
        order_by_masks(self.between(), self.between_masks(), p, q)
    }

    /// Whether two pairs with these orders in the parts at the ends have another order in the window afterwards.
    fn has_other_order(
        &self,
        old: PairEnds,
        new: PairEnds,
        p: &PairRef<'_>,
        q: &PairRef<'_>,
    ) -> bool
        requires old { orders.AreEnds (reversed.first_of self.now) (reversed.last_of self.now) p.now q.now old }
        requires new { orders.AreEnds (left.items_of self.now.first_left) (left.items_of self.now.last_left) p.now q.now new }
        ensures { IsTrue result ↔ Differ (IsBefore (reversed.old_of self.now) p.now q.now) (IsBefore (reversed.new_of self.now) p.now q.now) }
    {
        let between = self.order_between(p, q);
        comes_before(old, between) != comes_before(new, between)
    }

    /// Whether two pairs have another order in the window afterwards, and neither is after it, by their orders in the
    /// parts at the ends.
    fn is_reversed_between(
        &self,
        old: PairEnds,
        new: PairEnds,
        p: &PairRef<'_>,
        q: &PairRef<'_>,
    ) -> bool
        requires old { orders.AreEnds (reversed.first_of self.now) (reversed.last_of self.now) p.now q.now old }
        requires new { orders.AreEnds (left.items_of self.now.first_left) (left.items_of self.now.last_left) p.now q.now new }
        ensures { IsTrue result ↔ reversed.IsReversed self.now p.now q.now }
    {
        if !self.has_other_order(old, new, p, q) {
            return false;
        }
        if self.stands_behind(p) {
            return false;
        }
        !self.stands_behind(q)
    }

    /// Whether two pairs have another order in the window afterwards, and neither is after it. The items between and
    /// after are looked at only where they may decide.
    pub fn is_reversed(&self, p: &PairRef<'_>, q: &PairRef<'_>) -> bool
        ensures { IsTrue result ↔ reversed.IsReversed self.now p.now q.now }
    {
        let of_p = self.ends_looked_for(p);
        let of_q = self.ends_looked_for(q);
        let old = self.old_ends(p, of_p, q, of_q);
        let new = self.new_ends(p, of_p, q, of_q);
        if always_same(old, new) {
            return false;
        }
        self.is_reversed_between(old, new, p, q)
    }

    /// The number of a kept item among the items of the middle part.
    pub(crate) fn place_between(&self, number: usize) -> usize
        requires above { self.now.start ≤ number }
        requires below { number ≤ self.now.last }
        requires kept { (item : declared.Item) × (slice_get self.now.items.now number ≡ Some item) × (is_kept item ≡ true) }
        ensures place { result ≡ number - self.now.middle }
        ensures kept { (item : declared.Item) × (slice_get (reversed.middle_of self.now) result ≡ Some item) × (is_kept item ≡ true) }
    {
        number - self.middle
    }

    /// Whether a pair with these places in the parts at the ends and the kept item of this number of the middle part
    /// have another order in the window afterwards.
    fn has_other_kept_order(
        &self,
        old: KeptEnds,
        new: KeptEnds,
        p: &PairRef<'_>,
        place: usize,
    ) -> bool
        requires old { orders.AreKeptEnds (reversed.first_of self.now) (reversed.last_of self.now) p.now old }
        requires new { orders.AreKeptEnds (left.items_of self.now.first_left) (left.items_of self.now.last_left) p.now new }
        requires kept { (item : declared.Item) × (slice_get (reversed.middle_of self.now) place ≡ Some item) × (is_kept item ≡ true) }
        ensures { IsTrue result ↔ Differ (IsBeforeKept (reversed.old_of self.now) p.now (kept_before place (reversed.middle_of self.now))) (IsBeforeKept (reversed.new_of self.now) p.now (kept_before place (reversed.middle_of self.now))) }
    {
        has_other_place(old, new, self.between(), self.between_masks(), place, p)
    }

    /// Whether a pair and a kept item of the middle part have another order in the window afterwards, and the pair is
    /// not after it, by its places in the parts at the ends.
    fn is_kept_reversed_between(
        &self,
        old: KeptEnds,
        new: KeptEnds,
        p: &PairRef<'_>,
        place: usize,
    ) -> bool
        requires old { orders.AreKeptEnds (reversed.first_of self.now) (reversed.last_of self.now) p.now old }
        requires new { orders.AreKeptEnds (left.items_of self.now.first_left) (left.items_of self.now.last_left) p.now new }
        requires kept { (item : declared.Item) × (slice_get (reversed.middle_of self.now) place ≡ Some item) × (is_kept item ≡ true) }
        ensures { IsTrue result ↔ reversed.IsKeptReversed self.now p.now (kept_before place (reversed.middle_of self.now)) }
    {
        if !self.has_other_kept_order(old, new, p, place) {
            return false;
        }
        !self.stands_behind(p)
    }

    /// Whether a pair and the kept item of this number have another order in the window afterwards, and the pair is not
    /// after it. The items between and after are looked at only where they may decide.
    pub fn is_kept_reversed(&self, p: &PairRef<'_>, number: usize) -> bool
        requires above { self.now.start ≤ number }
        requires below { number ≤ self.now.last }
        requires kept { (item : declared.Item) × (slice_get self.now.items.now number ≡ Some item) × (is_kept item ≡ true) }
        ensures { IsTrue result ↔ reversed.IsKeptReversed self.now p.now (reversed.kept_number self.now number) }
    {
        let ends = self.ends_looked_for(p);
        let place = self.place_between(number);
        if always_same_kept(ends.old, ends.new) {
            return false;
        }
        self.is_kept_reversed_between(ends.old, ends.new, p, place)
    }
}

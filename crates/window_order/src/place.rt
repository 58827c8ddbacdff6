//! The last places of pairs in a window. They are looked for once.

ghost use Rattle.std.specs.Prelude.{◌≡◌, ◌↔◌, ◌≤◌, IsTrue, Some, true, map, slice_get};
ghost use Rattle.css_model.specs.declared.sheet.Item as declared;
ghost use Rattle.css_model.specs.Cascade.Order.{HasPair, IsBefore, IsBeforeKept};
ghost use Rattle.css_model.specs.Sheets.KeptItems.{is_kept, kept_before};
ghost use Rattle.item_masks.specs.Masks.{item_mask};
ghost use Rattle.order_laws.specs.Reversing.{Differ};
ghost use Rattle.window_order.specs.Left as left;
ghost use Rattle.window_order.specs.Orders as orders;
ghost use Rattle.window_order.specs.Places as places;
ghost use Rattle.window_order.specs.Reversed as reversed;

use crate::ends::{PairEnds, always_same, comes_before};
use crate::ends_known::KnownPair;
use crate::kept::{KeptEnds, always_same_kept, has_place_other};
use crate::masked::last_by_masks;
use crate::order::PairOrder;
use crate::pair::PairRef;
use crate::standing::comes_before_there;
use crate::window::Window;
use css_model::Item;

/// The last place of a pair in what is between the ends of a window, and whether it is after the window.
#[derive(Clone, Copy)]
pub enum Standing {
    /// It was not looked for yet.
    Unasked,
    /// It is after the window.
    Behind,
    /// It is not after the window. In what is between, it is last in the item of this number, if it is there.
    Last(Option<usize>),
}

/// The item of this number.
fn item_at(items: &[Item], number: usize) -> &Item
    requires { (item : declared.Item) × (slice_get items.now number ≡ Some item) }
    ensures { slice_get items.now number ≡ Some result.now }
{
    match items.get(number) {
        Some(item) => item,
        None => unreachable!(),
    }
}

/// Whether a pair comes last before another one in some items, by the numbers of the last items that have them.
fn comes_before_at(
    items: &[Item],
    p: &PairRef<'_>,
    at: usize,
    q: &PairRef<'_>,
    other: usize,
) -> bool
    requires first { places.IsLastPlace items.now at p.now }
    requires second { places.IsLastPlace items.now other q.now }
    ensures { IsTrue result ↔ IsBefore items.now p.now q.now }
{
    if at < other {
        return true;
    }
    if other < at {
        return false;
    }
    comes_before_there(item_at(items, at), p, q)
}

/// How two pairs are ordered in some items that have both, by the numbers of the last items that have them.
fn order_of_both(
    items: &[Item],
    p: &PairRef<'_>,
    at: usize,
    q: &PairRef<'_>,
    other: usize,
) -> PairOrder
    requires first { places.IsLastPlace items.now at p.now }
    requires second { places.IsLastPlace items.now other q.now }
    ensures { orders.IsOrder items.now p.now q.now result }
{
    if comes_before_at(items, p, at, q, other) {
        PairOrder::Before
    } else {
        PairOrder::NotBefore
    }
}

/// How two pairs are ordered in some items, by the last items that have them.
fn order_by_places(
    items: &[Item],
    p: &PairRef<'_>,
    at: Option<usize>,
    q: &PairRef<'_>,
    other: Option<usize>,
) -> PairOrder
    requires first { places.IsPlace items.now p.now at }
    requires second { places.IsPlace items.now q.now other }
    ensures { orders.IsOrder items.now p.now q.now result }
{
    match (at, other) {
        (None, None) => PairOrder::Neither,
        (None, Some(_)) => PairOrder::Second,
        (Some(_), None) => PairOrder::NotBefore,
        (Some(i), Some(j)) => order_of_both(items, p, i, q, j),
    }
}

impl<'a> Window<'a> {
    /// The last item of what is between that has a pair.
    fn last_between(&self, p: &PairRef<'_>) -> Option<usize>
        ensures { places.IsPlace (reversed.middle_of self.now) p.now result }
    {
        last_by_masks(self.between(), self.between_masks(), p)
    }

    /// Where a pair is in the window.
    fn looked_for(&self, p: &PairRef<'_>) -> Option<Option<usize>>
        ensures { places.IsSeen self.now p.now result }
    {
        if self.stands_behind(p) {
            None
        } else {
            Some(self.last_between(p))
        }
    }

    /// Where a pair is in the window. It is looked for if it was not yet.
    fn seen(&self, p: &PairRef<'_>, standing: &mut Standing) -> Option<Option<usize>>
        requires { places.IsStanding self.now p.now standing.old }
        ensures seen { places.IsSeen self.now p.now result }
        ensures kept { places.IsStanding self.now p.now standing.new }
    {
        match *standing {
            Standing::Behind => None,
            Standing::Last(place) => Some(place),
            Standing::Unasked => {
                let seen = self.looked_for(p);
                *standing = match seen {
                    None => Standing::Behind,
                    Some(place) => Standing::Last(place),
                };
                seen
            }
        }
    }

    /// How two pairs are ordered in what is between, by the last items that have them.
    fn order_at(
        &self,
        p: &PairRef<'_>,
        at: Option<usize>,
        q: &PairRef<'_>,
        other: Option<usize>,
    ) -> PairOrder
        requires first { places.IsPlace (reversed.middle_of self.now) p.now at }
        requires second { places.IsPlace (reversed.middle_of self.now) q.now other }
        ensures { orders.IsOrder (reversed.middle_of self.now) p.now q.now result }
    {
        order_by_places(self.between(), p, at, q, other)
    }

    /// Whether two pairs with these orders in the parts at the ends have another order in the window afterwards.
    fn has_order_other(
        &self,
        old: PairEnds,
        new: PairEnds,
        p: &PairRef<'_>,
        at: Option<usize>,
        q: &PairRef<'_>,
        other: Option<usize>,
    ) -> bool
        requires old { orders.AreEnds (reversed.first_of self.now) (reversed.last_of self.now) p.now q.now old }
        requires new { orders.AreEnds (left.items_of self.now.first_left) (left.items_of self.now.last_left) p.now q.now new }
        requires first { places.IsPlace (reversed.middle_of self.now) p.now at }
        requires second { places.IsPlace (reversed.middle_of self.now) q.now other }
        ensures { IsTrue result ↔ Differ (IsBefore (reversed.old_of self.now) p.now q.now) (IsBefore (reversed.new_of self.now) p.now q.now) }
    {
        let between = self.order_at(p, at, q, other);
        comes_before(old, between) != comes_before(new, between)
    }

    /// Whether two pairs have another order in the window afterwards, and the second one is not after it.
    fn is_reversed_from(
        &self,
        old: PairEnds,
        new: PairEnds,
        p: &PairRef<'_>,
        at: Option<usize>,
        q: &PairRef<'_>,
        of_q: &mut Standing,
    ) -> bool
        requires old { orders.AreEnds (reversed.first_of self.now) (reversed.last_of self.now) p.now q.now old }
        requires new { orders.AreEnds (left.items_of self.now.first_left) (left.items_of self.now.last_left) p.now q.now new }
        requires behind { HasPair (reversed.behind_of self.now) p.now → ⊥ }
        requires first { places.IsPlace (reversed.middle_of self.now) p.now at }
        requires second { places.IsStanding self.now q.now of_q.old }
        ensures told { IsTrue result ↔ reversed.IsReversed self.now p.now q.now }
        ensures second { places.IsStanding self.now q.now of_q.new }
    {
        match self.seen(q, of_q) {
            None => false,
            Some(other) => self.has_order_other(old, new, p, at, q, other),
        }
    }

    /// Whether two pairs have another order in the window afterwards, and neither is after it.
    fn is_reversed_by(
        &self,
        old: PairEnds,
        new: PairEnds,
        p: &PairRef<'_>,
        of_p: &mut Standing,
        q: &PairRef<'_>,
        of_q: &mut Standing,
    ) -> bool
        requires old { orders.AreEnds (reversed.first_of self.now) (reversed.last_of self.now) p.now q.now old }
        requires new { orders.AreEnds (left.items_of self.now.first_left) (left.items_of self.now.last_left) p.now q.now new }
        requires first { places.IsStanding self.now p.now of_p.old }
        requires second { places.IsStanding self.now q.now of_q.old }
        ensures told { IsTrue result ↔ reversed.IsReversed self.now p.now q.now }
        ensures first { places.IsStanding self.now p.now of_p.new }
        ensures second { places.IsStanding self.now q.now of_q.new }
    {
        match self.seen(p, of_p) {
            None => false,
            Some(at) => self.is_reversed_from(old, new, p, at, q, of_q),
        }
    }

    /// Whether two pairs have another order in the window afterwards, and neither is after it, by what is known of
    /// their places. What is not known and may decide is looked for, and is known afterwards.
    pub fn is_known_reversed(
        &self,
        p: &PairRef<'_>,
        of_p: &mut KnownPair,
        q: &PairRef<'_>,
        of_q: &mut KnownPair,
    ) -> bool
        requires first { places.IsKnownPair self.now p.now of_p.old }
        requires second { places.IsKnownPair self.now q.now of_q.old }
        ensures told { IsTrue result ↔ reversed.IsReversed self.now p.now q.now }
        ensures first { places.IsKnownPair self.now p.now of_p.new }
        ensures second { places.IsKnownPair self.now q.now of_q.new }
    {
        let ends_of_p = self.ends_of(p, of_p);
        let ends_of_q = self.ends_of(q, of_q);
        let old = self.old_ends(p, ends_of_p, q, ends_of_q);
        let new = self.new_ends(p, ends_of_p, q, ends_of_q);
        if always_same(old, new) {
            return false;
        }
        self.is_reversed_by(old, new, p, &mut of_p.standing, q, &mut of_q.standing)
    }

    /// Whether a pair with these places at the ends and the kept item of this number of the middle part have another
    /// order in the window afterwards.
    fn has_kept_order_other(
        &self,
        old: KeptEnds,
        new: KeptEnds,
        p: &PairRef<'_>,
        at: Option<usize>,
        place: usize,
    ) -> bool
        requires old { orders.AreKeptEnds (reversed.first_of self.now) (reversed.last_of self.now) p.now old }
        requires new { orders.AreKeptEnds (left.items_of self.now.first_left) (left.items_of self.now.last_left) p.now new }
        requires kept { (item : declared.Item) × (slice_get (reversed.middle_of self.now) place ≡ Some item) × (is_kept item ≡ true) }
        requires first { places.IsPlace (reversed.middle_of self.now) p.now at }
        ensures { IsTrue result ↔ Differ (IsBeforeKept (reversed.old_of self.now) p.now (kept_before place (reversed.middle_of self.now))) (IsBeforeKept (reversed.new_of self.now) p.now (kept_before place (reversed.middle_of self.now))) }
    {
        has_place_other(old, new, self.between(), place, p, at)
    }

    /// Whether a pair and a kept item of the middle part have another order in the window afterwards, and the pair is
    /// not after it.
    fn is_kept_reversed_by(
        &self,
        old: KeptEnds,
        new: KeptEnds,
        p: &PairRef<'_>,
        of_p: &mut Standing,
        place: usize,
    ) -> bool
        requires old { orders.AreKeptEnds (reversed.first_of self.now) (reversed.last_of self.now) p.now old }
        requires new { orders.AreKeptEnds (left.items_of self.now.first_left) (left.items_of self.now.last_left) p.now new }
        requires kept { (item : declared.Item) × (slice_get (reversed.middle_of self.now) place ≡ Some item) × (is_kept item ≡ true) }
        requires first { places.IsStanding self.now p.now of_p.old }
        ensures told { IsTrue result ↔ reversed.IsKeptReversed self.now p.now (kept_before place (reversed.middle_of self.now)) }
        ensures first { places.IsStanding self.now p.now of_p.new }
    {
        match self.seen(p, of_p) {
            None => false,
            Some(at) => self.has_kept_order_other(old, new, p, at, place),
        }
    }

    /// Whether a pair and the kept item of this number have another order in the window afterwards, and the pair is not
    /// after it, by what is known of its place. What is not known and may decide is looked for, and is known
    /// afterwards.
    pub fn is_known_kept_reversed(
        &self,
        p: &PairRef<'_>,
        of_p: &mut KnownPair,
        number: usize,
    ) -> bool
        requires above { self.now.start ≤ number }
        requires below { number ≤ self.now.last }
        requires kept { (item : declared.Item) × (slice_get self.now.items.now number ≡ Some item) × (is_kept item ≡ true) }
        requires first { places.IsKnownPair self.now p.now of_p.old }
        ensures told { IsTrue result ↔ reversed.IsKeptReversed self.now p.now (reversed.kept_number self.now number) }
        ensures first { places.IsKnownPair self.now p.now of_p.new }
    {
        let ends = self.ends_of(p, of_p);
        let place = self.place_between(number);
        if always_same_kept(ends.old, ends.new) {
            return false;
        }
        self.is_kept_reversed_by(ends.old, ends.new, p, &mut of_p.standing, place)
    }
}

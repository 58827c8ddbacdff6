//! Where pairs are in the parts at the ends of a window. It is looked for once.

ghost use Rattle.std.specs.Prelude.{◌≡◌, ◌↔◌, IsTrue};
ghost use Rattle.css_model.specs.Cascade.Order.{HasPair};
ghost use Rattle.window_order.specs.Left as left;
ghost use Rattle.window_order.specs.Orders as orders;
ghost use Rattle.window_order.specs.Places as places;
ghost use Rattle.window_order.specs.Reversed as reversed;

use crate::ends::PairEnds;
use crate::kept::KeptEnds;
use crate::masked::{order_by_both, stands_by_masks};
use crate::order::PairOrder;
use crate::pair::PairRef;
use crate::place::Standing;
use crate::window::Window;

/// Whether a pair is in the parts at the ends, before a step and after it.
#[derive(Clone, Copy)]
pub struct Ends {
    /// Before it.
    pub old: KeptEnds,
    /// After it.
    pub new: KeptEnds,
}

/// What is known of where a pair is in a window.
#[derive(Clone, Copy)]
pub struct KnownPair {
    /// In the parts at the ends, if it was looked for there.
    pub ends: Option<Ends>,
    /// Between them, and after the window.
    pub standing: Standing,
}

/// A pair of which nothing is known.
pub fn unknown_pair() -> KnownPair
    ensures { result ≡ places.unknown }
{
    KnownPair {
        ends: None,
        standing: Standing::Unasked,
    }
}

impl<'a> Window<'a> {
    /// Whether a pair is in the parts at the ends before the step.
    fn old_kept_ends(&self, p: &PairRef<'_>) -> KeptEnds
        ensures { orders.AreKeptEnds (reversed.first_of self.now) (reversed.last_of self.now) p.now result }
    {
        KeptEnds {
            above: stands_by_masks(self.first(), self.first_masks(), p),
            below: stands_by_masks(self.last(), self.last_masks(), p),
        }
    }

    /// Whether a pair is in the parts at the ends after the step.
    fn new_kept_ends(&self, p: &PairRef<'_>) -> KeptEnds
        ensures { orders.AreKeptEnds (left.items_of self.now.first_left) (left.items_of self.now.last_left) p.now result }
    {
        KeptEnds {
            above: self.first_left.has_masked(self.left_mask, p),
            below: self.last_left.has_masked(self.left_mask, p),
        }
    }

    /// Whether a pair is in the parts at the ends, before the step and after it.
    pub(crate) fn ends_looked_for(&self, p: &PairRef<'_>) -> Ends
        ensures { places.AreEndsOf self.now p.now result }
    {
        Ends {
            old: self.old_kept_ends(p),
            new: self.new_kept_ends(p),
        }
    }

    /// Whether a pair is in the parts at the ends, before the step and after it. It is looked for if it was not yet.
    pub(crate) fn ends_of(&self, p: &PairRef<'_>, known: &mut KnownPair) -> Ends
        requires { places.IsKnownPair self.now p.now known.old }
        ensures ends { places.AreEndsOf self.now p.now result }
        ensures known { places.IsKnownPair self.now p.now known.new }
    {
        match known.ends {
            Some(ends) => ends,
            None => {
                let ends = self.ends_looked_for(p);
                known.ends = Some(ends);
                ends
            }
        }
    }

    /// How two pairs are ordered in the first item, if there is one, by whether each is in it.
    fn first_order(&self, p: &PairRef<'_>, first: bool, q: &PairRef<'_>, second: bool) -> PairOrder
        requires first { IsTrue first ↔ HasPair (reversed.first_of self.now) p.now }
        requires second { IsTrue second ↔ HasPair (reversed.first_of self.now) q.now }
        ensures { orders.IsOrder (reversed.first_of self.now) p.now q.now result }
    {
        order_by_both(self.first(), self.first_masks(), p, first, q, second)
    }

    /// How two pairs are ordered in the last item, by whether each is in it.
    fn last_order(&self, p: &PairRef<'_>, first: bool, q: &PairRef<'_>, second: bool) -> PairOrder
        requires first { IsTrue first ↔ HasPair (reversed.last_of self.now) p.now }
        requires second { IsTrue second ↔ HasPair (reversed.last_of self.now) q.now }
        ensures { orders.IsOrder (reversed.last_of self.now) p.now q.now result }
    {
        order_by_both(self.last(), self.last_masks(), p, first, q, second)
    }

    /// How two pairs are ordered in the parts at the ends before the step.
    pub(crate) fn old_ends(
        &self,
        p: &PairRef<'_>,
        of_p: Ends,
        q: &PairRef<'_>,
        of_q: Ends,
    ) -> PairEnds
        requires first { places.AreEndsOf self.now p.now of_p }
        requires second { places.AreEndsOf self.now q.now of_q }
        ensures { orders.AreEnds (reversed.first_of self.now) (reversed.last_of self.now) p.now q.now result }
    {
        PairEnds {
            above: self.first_order(p, of_p.old.above, q, of_q.old.above),
            below: self.last_order(p, of_p.old.below, q, of_q.old.below),
        }
    }

    /// How two pairs are ordered in the parts at the ends after the step.
    pub(crate) fn new_ends(
        &self,
        p: &PairRef<'_>,
        of_p: Ends,
        q: &PairRef<'_>,
        of_q: Ends,
    ) -> PairEnds
        requires first { places.AreEndsOf self.now p.now of_p }
        requires second { places.AreEndsOf self.now q.now of_q }
        ensures { orders.AreEnds (left.items_of self.now.first_left) (left.items_of self.now.last_left) p.now q.now result }
    {
        PairEnds {
            above: self
                .first_left
                .order_by_both(p, of_p.new.above, q, of_q.new.above),
            below: self
                .last_left
                .order_by_both(p, of_p.new.below, q, of_q.new.below),
        }
    }
}

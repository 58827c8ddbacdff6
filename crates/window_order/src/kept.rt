//! Whether a pair comes last before a kept item.

ghost use Rattle.std.specs.Prelude.{◌≡◌, ◌↔◌, ◌+◌, ◌<◌, IsTrue, Some, true, drop, length, map, slice_get, take};
ghost use Rattle.css_model.specs.declared.sheet.Item as declared;
ghost use Rattle.css_model.specs.Cascade.Order.{HasPair};
ghost use Rattle.css_model.specs.Sheets.KeptItems as keeping;
ghost use Rattle.item_masks.specs.Masks.{item_mask};
ghost use Rattle.window_order.specs.Orders as orders;
ghost use Rattle.window_order.specs.Places as places;

use crate::masked::stands_by_masks;
use crate::pair::PairRef;
use css_model::Item;
use item_masks::ItemMask;

/// Whether a pair is in the parts at the ends of a window.
#[derive(Clone, Copy)]
pub struct KeptEnds {
    /// In the first part.
    pub above: bool,
    /// In the last part.
    pub below: bool,
}

/// Whether a pair comes last before a kept item of the middle part, by whether it is above it in that part. It is not
/// below the kept item there.
fn comes_before_kept(ends: KeptEnds, above: bool) -> bool
    ensures { result ≡ orders.comes_before_kept ends above }
{
    (ends.above || above) && !ends.below
}

/// Whether a pair has the same order with a kept item before and after a step, wherever the pair is between the ends.
pub(crate) fn always_same_kept(old: KeptEnds, new: KeptEnds) -> bool
    ensures { IsTrue result ↔ orders.AreAlwaysSameKept old new }
{
    comes_before_kept(old, false) == comes_before_kept(new, false)
        && comes_before_kept(old, true) == comes_before_kept(new, true)
}

/// Whether a pair is in the items below the one of this number, by the masks.
fn stands_below(items: &[Item], masks: &[ItemMask], number: usize, p: &PairRef<'_>) -> bool
    requires number { number < length items.now }
    requires items { masks.now ≡ map item_mask items.now }
    ensures { IsTrue result ↔ HasPair (drop (number + 1) items.now) p.now }
{
    stands_by_masks(&items[number + 1..], &masks[number + 1..], p)
}

/// Whether a pair is in the items above the one of this number, by the masks.
fn stands_above(items: &[Item], masks: &[ItemMask], number: usize, p: &PairRef<'_>) -> bool
    requires number { number < length items.now }
    requires items { masks.now ≡ map item_mask items.now }
    ensures { IsTrue result ↔ HasPair (take number items.now) p.now }
{
    stands_by_masks(&items[..number], &masks[..number], p)
}

/// Whether a pair and the kept item of this number of the middle part have another order with the new parts at the
/// ends, by what is between.
pub(crate) fn has_other_place(
    old: KeptEnds,
    new: KeptEnds,
    middle: &[Item],
    masks: &[ItemMask],
    number: usize,
    p: &PairRef<'_>,
) -> bool
    requires kept { (item : declared.Item) × (slice_get middle.now number ≡ Some item) × (keeping.is_kept item ≡ true) }
    requires items { masks.now ≡ map item_mask middle.now }
    ensures { orders.HasOtherPlace old new middle.now number p.now result }
{
    if stands_below(middle, masks, number, p) {
        return false;
    }
    let above = stands_above(middle, masks, number, p);
    comes_before_kept(old, above) != comes_before_kept(new, above)
}

/// Whether a pair whose last place in the middle part is this one is below the kept item of this number.
fn is_below(at: Option<usize>, number: usize) -> bool
    ensures { IsTrue result ↔ places.IsBelow at number }
{
    match at {
        Some(place) => number < place,
        None => false,
    }
}

/// Whether there is a last place.
fn is_somewhere(at: Option<usize>) -> bool
    ensures { IsTrue result ↔ places.IsSomewhere at }
{
    match at {
        Some(_) => true,
        None => false,
    }
}

/// Whether a pair and a kept item have another order with the new parts at the ends, by the pair's last place in what
/// is between.
pub(crate) fn has_place_other(
    old: KeptEnds,
    new: KeptEnds,
    middle: &[Item],
    number: usize,
    p: &PairRef<'_>,
    at: Option<usize>,
) -> bool
    requires kept { (item : declared.Item) × (slice_get middle.now number ≡ Some item) × (keeping.is_kept item ≡ true) }
    requires place { places.IsPlace middle.now p.now at }
    ensures { orders.HasOtherPlace old new middle.now number p.now result }
{
    if is_below(at, number) {
        return false;
    }
    let above = is_somewhere(at);
    comes_before_kept(old, above) != comes_before_kept(new, above)
}

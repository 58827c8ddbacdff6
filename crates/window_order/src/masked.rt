//! Whether a pair is in items with masks, and how two pairs are ordered there.

ghost use Rattle.std.specs.Prelude.{◌≡◌, ◌↔◌, IfSome, IsTrue, ◌≤◌, ◌∷◌, [], bit_and, length, map, take, true, zip};
ghost use Rattle.std.specs.List.{list_any};
ghost use Rattle.css_model.specs.Cascade.Order.{HasPair};
ghost use Rattle.item_masks.specs.Masks.{item_mask, pair_mask};
ghost use Rattle.window_order.specs.Found.{IsFound, IsFoundLast};
ghost use Rattle.window_order.specs.Orders as orders;
ghost use Rattle.window_order.specs.Places as places;
ghost use Rattle.window_order.specs.Standing as standing;

use crate::order::{Found, PairOrder, first_alone, second_below};
use crate::pair::PairRef;
use crate::standing::{comes_before_if, comes_before_there, is_in_item};
use css_model::Item;
use item_masks::ItemMask;

/// Whether a pair is in an item with a mask. Nearly all items without the pair are known by the masks.
fn is_in_masked(item: &Item, of_item: ItemMask, p: &PairRef<'_>) -> bool
    ensures { result ≡ standing.is_in_masked (pair_mask p.now) p.now item.now of_item }
{
    of_item.meets(p.mask) && is_in_item(item, p)
}

/// Whether a pair is in some items with masks.
fn stands_masked(items: &[Item], masks: &[ItemMask], p: &PairRef<'_>) -> bool
    ensures { result ≡ list_any (λ x. standing.is_in_masked (pair_mask p.now) p.now x.0 x.1) (zip items.now masks.now) }
{
    items.iter().zip(masks).any(|(item, of_item)| of_item.meets(p.mask) && is_in_item(item, p))
}

/// How many items are passed at once.
const MANY: usize = 8;

/// The bits of the selectors of some masks.
#[inline]
fn selector_bits(masks: &[ItemMask]) -> u64
    ensures { result ≡ standing.with_bits 0 masks.now }
{
    let mut bits: u64 = 0;
    let mut rest = masks;
    'rest: while let Some((first, behind)) = rest.split_first() {
        bits |= first.selectors;
        rest = behind;
    }
    bits
}

/// Whether bits of selectors lack the bit of a pair's selector.
#[inline]
fn lack_bit_of(bits: u64, p: &PairRef<'_>) -> bool
    ensures { result ≡ true → bit_and bits (pair_mask p.now).selectors ≡ 0 }
{
    bits & p.mask.selectors == 0
}

/// Whether a pair is in some items. They are passed at once where no selector of theirs has the bit of the pair's.
#[inline]
fn stands_in_few(items: &[Item], masks: &[ItemMask], p: &PairRef<'_>) -> bool
    requires { masks.now ≡ map item_mask items.now }
    ensures { result ≡ standing.stands items.now p.now }
{
    if lack_bit_of(selector_bits(masks), p) {
        return false;
    }
    stands_masked(items, masks, p)
}

/// Whether a pair is in some items. Some of them are passed at once.
fn stands_in_many(items: &[Item], masks: &[ItemMask], p: &PairRef<'_>) -> bool
    requires { masks.now ≡ map item_mask items.now }
    ensures { result ≡ standing.stands items.now p.now }
{
    let mut rest = items;
    let mut of_rest = masks;
    'rest: while MANY <= rest.len() && MANY <= of_rest.len() {
        let (few, behind) = rest.split_at(MANY);
        let (of_few, of_behind) = of_rest.split_at(MANY);
        if stands_in_few(few, of_few, p) {
            return true;
        }
        rest = behind;
        of_rest = of_behind;
    }
    stands_in_few(rest, of_rest, p)
}

/// Whether a pair is in some items, by its mask and theirs.
pub(crate) fn stands_by_masks(items: &[Item], masks: &[ItemMask], p: &PairRef<'_>) -> bool
    requires { masks.now ≡ map item_mask items.now }
    ensures { IsTrue result ↔ HasPair items.now p.now }
{
    stands_in_many(items, masks, p)
}

/// Whether a pair is in an item, by its mask and that of the item.
fn stands_in_masked(item: &Item, of_item: ItemMask, p: &PairRef<'_>) -> bool
    requires { of_item ≡ item_mask item.now }
    ensures { IsTrue result ↔ HasPair (item.now ∷ []) p.now }
{
    is_in_masked(item, of_item, p)
}

/// The number of the last of some items that has a pair, by its mask and theirs, one item after the other.
fn last_of_few(items: &[Item], masks: &[ItemMask], p: &PairRef<'_>) -> Option<usize>
    requires { masks.now ≡ map item_mask items.now }
    ensures { places.IsPlace items.now p.now result }
{
    let mut rest = items;
    'rest: while let Some((last, above)) = rest.split_last() {
        if stands_in_masked(last, masks[above.len()], p) {
            return Some(above.len());
        }
        rest = above;
    }
    None
}

/// The number of the last of some items that has a pair, by its mask and theirs. Some of them are passed at once.
pub(crate) fn last_by_masks(items: &[Item], masks: &[ItemMask], p: &PairRef<'_>) -> Option<usize>
    requires { masks.now ≡ map item_mask items.now }
    ensures { places.IsPlace items.now p.now result }
{
    let mut rest = items;
    let mut of_rest = masks;
    'rest: while MANY <= rest.len() && rest.len() <= of_rest.len() {
        let from = rest.len() - MANY;
        let (above, few) = rest.split_at(from);
        let (of_above, of_few) = of_rest.split_at(from);
        if stands_in_few(few, of_few, p) {
            return last_of_few(rest, of_rest, p);
        }
        rest = above;
        of_rest = of_above;
    }
    last_of_few(rest, of_rest, p)
}

/// What an item with a mask, with these items above it, says of the order of two pairs.
fn found_masked<'a>(
    above: &'a [Item],
    last: &Item,
    of_last: ItemMask,
    p: &PairRef<'_>,
    q: &PairRef<'_>,
) -> Found<'a>
    requires { of_last ≡ item_mask last.now }
    ensures { IsFoundLast above.now last.now p.now q.now result }
{
    let second = stands_in_masked(last, of_last, q);
    if stands_in_masked(last, of_last, p) {
        if comes_before_if(last, p, q, second) {
            Found::Before
        } else {
            Found::NotBefore
        }
    } else if second {
        Found::Second(above)
    } else {
        Found::Neither
    }
}

/// What the last of some items that has one of two pairs says of their order, by the masks.
fn found_by_masks<'a>(
    items: &'a [Item],
    masks: &[ItemMask],
    p: &PairRef<'_>,
    q: &PairRef<'_>,
) -> Found<'a>
    requires { masks.now ≡ map item_mask items.now }
    ensures { IsFound items.now p.now q.now result }
{
    let mut rest = items;
    'rest: while let Some((last, above)) = rest.split_last() {
        match found_masked(above, last, masks[above.len()], p, q) {
            Found::Neither => rest = above,
            found => return found,
        }
    }
    Found::Neither
}

/// Whether a pair is in the first of some items, by the masks of all.
fn stands_above(above: &[Item], masks: &[ItemMask], p: &PairRef<'_>) -> bool
    requires items { take (length above.now) masks.now ≡ map item_mask above.now }
    requires count { length above.now ≤ length masks.now }
    ensures { IsTrue result ↔ HasPair above.now p.now }
{
    stands_by_masks(above, &masks[..above.len()], p)
}

/// How two pairs are ordered in some items, by the masks.
pub(crate) fn order_by_masks(
    items: &[Item],
    masks: &[ItemMask],
    p: &PairRef<'_>,
    q: &PairRef<'_>,
) -> PairOrder
    requires { masks.now ≡ map item_mask items.now }
    ensures { orders.IsOrder items.now p.now q.now result }
{
    match found_by_masks(items, masks, p, q) {
        Found::Before => PairOrder::Before,
        Found::NotBefore => PairOrder::NotBefore,
        Found::Second(above) => second_below(stands_above(above, masks, p)),
        Found::Neither => PairOrder::Neither,
    }
}

/// The only one of some items, if there is but one.
fn only_one(items: &[Item]) -> Option<&Item>
    ensures { IfSome result (λ x. items.now ≡ x.now ∷ []) }
{
    if let Some((last, above)) = items.split_last() {
        if above.is_empty() {
            return Some(last);
        }
    }
    None
}

/// How two pairs are ordered in an item that has both.
fn order_in_one(item: &Item, p: &PairRef<'_>, q: &PairRef<'_>) -> PairOrder
    requires first { HasPair (item.now ∷ []) p.now }
    requires second { HasPair (item.now ∷ []) q.now }
    ensures { orders.IsOrder (item.now ∷ []) p.now q.now result }
{
    if comes_before_there(item, p, q) {
        PairOrder::Before
    } else {
        PairOrder::NotBefore
    }
}

/// How two pairs are ordered in some items, by whether each is in them. The items are looked at only where both are.
pub(crate) fn order_by_both(
    items: &[Item],
    masks: &[ItemMask],
    p: &PairRef<'_>,
    first: bool,
    q: &PairRef<'_>,
    second: bool,
) -> PairOrder
    requires items { masks.now ≡ map item_mask items.now }
    requires first { IsTrue first ↔ HasPair items.now p.now }
    requires second { IsTrue second ↔ HasPair items.now q.now }
    ensures { orders.IsOrder items.now p.now q.now result }
{
    if !second {
        return first_alone(first);
    }
    if !first {
        return PairOrder::Second;
    }
    match only_one(items) {
        Some(item) => order_in_one(item, p, q),
        None => order_by_masks(items, masks, p, q),
    }
}

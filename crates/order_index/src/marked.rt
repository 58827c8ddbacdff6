//! Pairs and kept items with the masks of what they may weigh with.

ghost use Rattle.std.specs.Prelude.{◌≡◌, ◌++◌, ◌∷◌, [], IfOk, OnOk};
ghost use Rattle.item_masks.specs.Masks.{pair_mask};
ghost use Rattle.order_laws.specs.Comparing as order;
ghost use Rattle.order_laws.specs.Reversed.{kept_from};
ghost use Rattle.related_props.specs.Masks as masks;
ghost use Rattle.selector_laws.specs.Limits.{KeepsLimits};

use css_model::Item;
use item_masks::{ItemMask, pair_mask};
use order_laws::weighing_is_decided;
use related_props::item_mask;
use sheet_order::{Placed, is_kept, weigh, weighs_kept};
use std::alloc::{AllocError, Global};
use std::marker::Model;
use window_order::PairRef;

/// A pair at one of its places, with its mask.
#[derive(Drop)]
pub(crate) struct Marked<'a> {
    pub(crate) pair: Placed<'a>,
    pub(crate) mask: ItemMask,
    ghost masked: { mask ≡ pair_mask pair.pair },
}

impl<'a> Model for Marked<'a> {
    ghost use Rattle.order_laws.specs.Places.{PlacedPair};

    ghost Value = { PlacedPair };

    ghost view = { λ m. m.pair };
}

/// A kept item with its number among all items, and its mask.
#[derive(Drop)]
pub(crate) struct MarkedKept<'a> {
    pub(crate) number: usize,
    pub(crate) item: &'a Item,
    pub(crate) mask: u64,
    ghost masked: { mask ≡ masks.item_mask item.now },
}

impl<'a> Model for MarkedKept<'a> {
    ghost use Rattle.std.specs.Prelude.{ℕ};
    ghost use Rattle.css_model.specs.declared.sheet.Item as declared;

    ghost Value = { ℕ × declared.Item };

    ghost view = { λ k. (k.number, k.item.now) };
}

/// A pair with its mask.
fn mark_pair<'a>(p: &Placed<'a>) -> Marked<'a>
    ensures { result ≡ p.now }
{
    let mask = pair_mask(p.selector, p.decl);
    Marked {
        pair: p.copy(),
        mask,
    }
}

/// Pairs with their masks, in their order.
pub(crate) fn all_marked<'a>(
    alloc: Global,
    pairs: &[Placed<'a>],
) -> Result<Vec<Marked<'a>>, AllocError>
    ensures { IfOk result (λ list. list.items ≡ pairs.now) }
{
    let mut list = Vec::with_capacity(alloc, pairs.len())?;
    for p in pairs {
        list.push(mark_pair(p))?;
    }
    Ok(list)
}

/// Puts an item with its mask after the others, if it is kept.
fn push_if_kept<'a>(
    found: &mut Vec<MarkedKept<'a>>,
    number: usize,
    item: &'a Item,
) -> Result<(), AllocError>
    ensures { OnOk result (found.new.items ≡ found.old.items ++ kept_from number (item.now ∷ [])) }
{
    if is_kept(item) {
        let mask = item_mask(item);
        found.push(MarkedKept { number, item, mask })?;
    }
    Ok(())
}

/// The kept items with their masks, in their order.
#[tactic(auto, using(sheet_order::proofs::ForCallers::kept_from_cons))]
pub(crate) fn list_kept<'a>(
    alloc: Global,
    items: &'a [Item],
) -> Result<Vec<MarkedKept<'a>>, AllocError>
    ensures { IfOk result (λ found. found.items ≡ kept_from 0 items.now) }
{
    let mut found = Vec::new(alloc);
    let mut number = 0;
    let mut rest = items;
    'rest: while let Some((first, behind)) = rest.split_first() {
        push_if_kept(&mut found, number, first)?;
        number += 1;
        rest = behind;
    }
    Ok(found)
}

impl<'a> Marked<'a> {
    /// The pair, by references to its parts.
    pub(crate) fn parts(&self) -> PairRef<'a>
        ensures { result ≡ self.now.pair }
    {
        PairRef {
            selector: self.pair.selector,
            decl: self.pair.decl,
            mask: self.mask,
        }
    }

    /// The number of its item.
    pub(crate) fn item_number(&self) -> usize
        ensures { result ≡ self.now.place.item }
    {
        self.pair.item
    }

    /// Whether two pairs weigh. Most that do not are known by their masks.
    #[tactic(auto, using(crate::proofs::Masked::weigh_shows))]
    pub(crate) fn weighs(&self, q: &Marked<'_>) -> bool
        requires first { KeepsLimits self.now.pair.selector }
        requires second { KeepsLimits q.now.pair.selector }
        ensures { result ≡ order.weigh self.now.pair q.now.pair }
    {
        weighing_is_decided();
        if self.mask.families & q.mask.families == 0 {
            return false;
        }
        weigh(&self.pair, &q.pair)
    }

    /// Whether a pair weighs with a kept item. Most that do not are known by their masks.
    #[tactic(auto, using(crate::proofs::Masked::kept_shows))]
    pub(crate) fn weighs_with(&self, kept: &MarkedKept<'_>) -> bool
        ensures { result ≡ order.weighs_kept self.now.pair kept.now.1 }
    {
        weighing_is_decided();
        if self.mask.families & kept.mask == 0 {
            return false;
        }
        weighs_kept(&self.pair, kept.item)
    }
}

//! Masks of items and of pairs.

ghost use Rattle.std.specs.Prelude.{◌≡◌, IfOk, map};
ghost use Rattle.css_model.specs.declared.sheet.Item.TheVariants as item;
ghost use Rattle.item_masks.specs.Masks as masks;

use crate::mask::ItemMask;
use css_model::{Decl, Item, Rule, SelItem, Selector};
use related_props::{decl_mask, mask_of_items};
use rule_tables::selector_digest;
use std::alloc::{AllocError, Global};

/// The mask of a selector: one bit, which other selectors may share.
fn selector_mask(selector: &Selector) -> u64
    ensures { result ≡ masks.selector_mask selector.now }
{
    1 << (selector_digest(selector) % 64)
}

/// The bits of some selectors.
fn mask_of_selectors(selectors: &[SelItem]) -> u64
    ensures { result ≡ masks.with_selectors 0 selectors.now }
{
    let mut mask: u64 = 0;
    let mut rest = selectors;
    'rest: while let Some((first, behind)) = rest.split_first() {
        mask |= selector_mask(&first.selector);
        rest = behind;
    }
    mask
}

/// The mask of a rule as an item.
pub fn rule_mask(rule: &Rule) -> ItemMask
    ensures { result ≡ masks.item_mask (item.Rule rule.now) }
{
    ItemMask {
        families: mask_of_items(&rule.decls),
        selectors: mask_of_selectors(&rule.selectors),
    }
}

/// The mask of an item: the bits of its declarations, and of a rule those of its selectors too. A kept block has each
/// bit.
pub fn item_mask(item: &Item) -> ItemMask
    ensures { result ≡ masks.item_mask item.now }
{
    match item {
        Item::Rule(rule) => rule_mask(rule),
        Item::KeptRule(_) | Item::KeptBlock(_) => ItemMask {
            families: related_props::item_mask(item),
            selectors: 0,
        },
    }
}

/// The masks of some items, in their order. `AllocError` where memory is short.
pub fn item_masks(alloc: Global, items: &[Item]) -> Result<Vec<ItemMask>, AllocError>
    ensures { IfOk result (λ list. list.items ≡ map masks.item_mask items.now) }
{
    let mut list = Vec::with_capacity(alloc, items.len())?;
    for item in items {
        list.push(item_mask(item))?;
    }
    Ok(list)
}

/// The mask of a pair of these parts. An item that has the pair has its bits.
pub fn pair_mask(selector: &Selector, decl: &Decl) -> ItemMask
    ensures { result ≡ masks.pair_mask (record { selector = selector.now; decl = decl.now }) }
{
    ItemMask {
        families: decl_mask(decl),
        selectors: selector_mask(selector),
    }
}

//! Masks of declarations and items, by the families of their names.

ghost use Rattle.std.specs.Prelude.{◌≡◌, map, IfOk};
ghost use Rattle.related_props.specs.Masks as masks;
ghost use Rattle.related_props.specs.Seen.{family_seen};

use crate::bits::{bit_of, bit_of_word};
use crate::families::{Seen, seen_family};
use css_model::{Decl, DeclItem, Item};
use std::alloc::{AllocError, Global};

/// The mask of a family.
fn family_mask(family: Seen<'_>) -> u64
    ensures { result ≡ masks.family_mask (family_seen family.entry) }
{
    match family {
        Seen::All => u64::MAX,
        Seen::Custom(text) | Seen::Named(text) => 1 << bit_of(text),
        Seen::Listed(word) => 1 << bit_of_word(word),
    }
}

/// The mask of a declaration: the bit of its property's family, or each bit for `all`. Declarations of related names
/// have a bit in common.
pub fn decl_mask(decl: &Decl) -> u64
    ensures { result ≡ masks.decl_mask decl.now }
{
    family_mask(seen_family(decl.name.codes()))
}

/// The bits of some declarations.
fn mask_of_decls(decls: &[Decl]) -> u64
    ensures { result ≡ masks.with_decls 0 decls.now }
{
    let mut mask: u64 = 0;
    let mut rest = decls;
    'rest: while let Some((first, behind)) = rest.split_first() {
        mask |= decl_mask(first);
        rest = behind;
    }
    mask
}

/// The bits of the declarations of a rule.
pub fn mask_of_items(items: &[DeclItem]) -> u64
    ensures { result ≡ masks.with_items 0 items.now }
{
    let mut mask: u64 = 0;
    let mut rest = items;
    'rest: while let Some((first, behind)) = rest.split_first() {
        mask |= decl_mask(&first.decl);
        rest = behind;
    }
    mask
}

/// The mask of an item: the bits of its declarations, or each bit for a kept block.
pub fn item_mask(item: &Item) -> u64
    ensures { result ≡ masks.item_mask item.now }
{
    match item {
        Item::Rule(rule) => mask_of_items(&rule.decls),
        Item::KeptRule(rule) => mask_of_decls(&rule.decls),
        Item::KeptBlock(_) => u64::MAX,
    }
}

/// The masks of some items, in their order. `AllocError` where memory is short.
pub fn item_masks(alloc: Global, items: &[Item]) -> Result<Vec<u64>, AllocError>
    ensures { IfOk result (λ list. list.items ≡ map masks.item_mask items.now) }
{
    let mut list = Vec::with_capacity(alloc, items.len())?;
    for item in items {
        list.push(item_mask(item))?;
    }
    Ok(list)
}

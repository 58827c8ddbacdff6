//! The masks of the declarations of a rule, by their numbers.

ghost use Rattle.std.specs.Prelude.{◌≡◌, ℕ, IfOk, None, Some, map, slice_get};
ghost use Rattle.step_obstacles.specs.Turns as turns;

use css_model::{Decl, DeclItem, Item, Rule};
use related_props::decl_mask;
use rule_parts::has_decl;
use std::alloc::{AllocError, Global};

/// Whether a declaration is in another rule too, if one is given.
pub(crate) fn is_common(with: Option<&Rule>, decl: &Decl) -> bool
    ensures { result ≡ turns.is_common with.entry decl.now }
{
    match with {
        None => true,
        Some(rule) => has_decl(&rule.decls, decl),
    }
}

/// The mask of a declaration that is common; 0 for any other.
fn mask_in(with: Option<&Rule>, item: &DeclItem) -> u64
    ensures { result ≡ turns.mask_in with.entry item.now }
{
    if is_common(with, &item.decl) {
        decl_mask(&item.decl)
    } else {
        0
    }
}

/// The masks of some declarations; 0 for those that are not common. `AllocError` where memory is short.
pub(crate) fn masks_of(
    alloc: Global,
    decls: &[DeclItem],
    with: Option<&Rule>,
) -> Result<Vec<u64>, AllocError>
    ensures { IfOk result (λ list. list.items ≡ map (turns.mask_in with.entry) decls.now) }
{
    let mut list = Vec::with_capacity(alloc, decls.len())?;
    for item in decls {
        list.push(mask_in(with, item))?;
    }
    Ok(list)
}

/// The masks of the declarations of an item, if it is a rule. `AllocError` where memory is short.
pub(crate) fn masks_in(alloc: Global, item: &Item) -> Result<Vec<u64>, AllocError>
    ensures { IfOk result (λ list. turns.AreMasksIn item.now list.items) }
{
    match item {
        Item::Rule(rule) => masks_of(alloc, &rule.decls, None),
        _ => Ok(Vec::new(alloc)),
    }
}

/// The bits of some masks.
pub(crate) fn bits_of(masks: &[u64]) -> u64
    ensures { result ≡ turns.with_masks 0 masks.now }
{
    let mut bits: u64 = 0;
    let mut rest = masks;
    'rest: while let Some((first, behind)) = rest.split_first() {
        bits |= *first;
        rest = behind;
    }
    bits
}

/// The mask of this number.
pub(crate) fn mask_at(masks: &[u64], number: u32) -> u64
    requires { (m : ℕ) × (slice_get masks.now number ≡ Some m) }
    ensures { slice_get masks.now number ≡ Some result }
{
    match masks.get(number as usize) {
        Some(mask) => *mask,
        None => unreachable!(),
    }
}

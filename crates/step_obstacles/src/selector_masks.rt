//! The masks of the selectors of a rule, by their numbers.

ghost use Rattle.std.specs.Prelude.{◌≡◌, IfOk};
ghost use Rattle.item_masks.specs.Masks as masks;
ghost use Rattle.step_obstacles.specs.Turns as turns;

use css_model::{SelItem, Selector};
use rule_tables::selector_digest;
use std::alloc::{AllocError, Global};

/// The mask of a selector, as it is in that of a pair.
pub(crate) fn selector_mask(selector: &Selector) -> u64
    ensures { result ≡ masks.selector_mask selector.now }
{
    1 << (selector_digest(selector) % 64)
}

/// The masks of some selectors. `AllocError` where memory is short.
pub(crate) fn selector_masks_of(
    alloc: Global,
    selectors: &[SelItem],
) -> Result<Vec<u64>, AllocError>
    ensures { IfOk result (λ list. list.items ≡ turns.selector_masks_of selectors.now) }
{
    let mut list = Vec::with_capacity(alloc, selectors.len())?;
    for item in selectors {
        list.push(selector_mask(&item.selector))?;
    }
    Ok(list)
}

//! Masks of items, by the families of their declarations and by their selectors. By them most items are passed over
//! that do not have a pair.
#![tactic(auto)]

mod mask;
mod masks;

pub use mask::ItemMask;
pub use masks::{item_mask, item_masks, pair_mask, rule_mask};

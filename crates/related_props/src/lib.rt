//! Which properties can set the same thing: the families of properties, and the names that are related. Also masks of
//! items, by which most items that have nothing related are passed over.
#![tactic(auto)]

mod bits;
mod families;
mod laws;
mod masks;
mod parts;
mod table;

pub use families::{family, related};
pub use laws::{all_is_related, related_is_reflexive, related_is_symmetric};
pub use masks::{decl_mask, item_mask, item_masks, mask_of_items};

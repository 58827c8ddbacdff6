//! When a sheet keeps the winners of another one, and when a change of a sheet keeps the sheet.
#![tactic(auto)]

mod comparing;
mod keeping;
mod moving;
mod places;
mod reversed;
mod reversing;

pub use comparing::{order_is_decided, weighing_is_decided};
pub use keeping::{
    each_sheet_keeps_itself, keeping_goes_on, keeping_is_mutual, keeping_keeps_winners,
};
pub use moving::{moving_apart_keeps, moving_rearranges};
pub use places::listed_stands_last;
pub use reversed::{keys_tell_apart, listed_ascends, listed_is_reversed, reversing_apart_keeps};
pub use reversing::{rearranging_keeps, unmoved_keep_their_order};

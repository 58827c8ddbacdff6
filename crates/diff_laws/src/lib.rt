//! Laws on what is found between two sheets laid flat: functions that do nothing, whose contracts are the laws, and the
//! proofs of these.
#![tactic(auto)]

mod same;
mod told;

pub use same::same_members_win_alike;
pub use told::{some_of_each_item_is_told, told_nothing_is_apart};

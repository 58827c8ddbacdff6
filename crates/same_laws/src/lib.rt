//! Laws on two sheets compared: functions that do nothing, whose contracts are the laws, and the proofs of these.
#![tactic(auto)]

mod opened;
mod same;

pub use opened::none_is_opened_alone;
pub use same::{same_parts_keep, same_sheets_win_alike};

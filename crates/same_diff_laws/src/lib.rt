//! Laws between two sheets compared and two sheets laid flat: functions that do nothing, whose contracts are the laws, and the
//! proofs of these.
#![tactic(auto)]

mod same;
mod texts;

pub use same::same_sheets_differ_in_nothing;
pub use texts::same_texts_differ_in_nothing;

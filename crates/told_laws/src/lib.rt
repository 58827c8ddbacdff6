//! Laws on what is told of two sheets laid flat: functions that do nothing, whose contracts are the laws, and the proofs of these.
//!
//! - `order`: what the example of a couple shows.
//! - `reversed`: who wins in each of two sheets.
//! - `same`: what the word `same` means.
#![tactic(auto)]

mod order;
mod reversed;
mod same;

pub use order::told_couples_show_order;
pub use reversed::told_winners_win;
pub use same::same_text_means_same;

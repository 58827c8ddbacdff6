//! Laws on how a selector text is read: what is read is derived by the grammar and keeps to the limits, and each reason
//! against a text has its place. No function that reads or prints needs them.
#![tactic(auto)]

mod laws;
mod refusals;

pub use laws::{
    read_selectors_are_derived, read_selectors_keep_the_limits, selectors_are_read_exactly,
    written_positions_are_tested,
};
pub use refusals::refusals_stand_at_their_tokens;

//! Which declarations of a sheet win in a given document.
#![tactic(auto)]

mod best;
mod entries;
mod names;
mod winning;
mod won;

pub use line_match::matches_in;
pub use winning::winners;
pub use won::Won;

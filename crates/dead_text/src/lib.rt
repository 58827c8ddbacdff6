//! Which selectors of a sheet match nothing in any legal document, from the bytes of the sheet to lines.
#![tactic(auto)]

mod laws;
mod lines;
mod listing;
mod telling;

pub use laws::{alive_selectors_match, dead_selectors_match_nothing};
pub use lines::dead_lines;

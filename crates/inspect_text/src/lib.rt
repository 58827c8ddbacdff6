//! What the rules of a sheet apply to an element of a small page, in the order of the cascade, from bytes to lines.
#![tactic(auto)]

mod claims;
mod counting;
mod entry;
mod families;
mod gathering;
mod groups;
mod laws;
mod layer;
mod matching;
mod ordering;
mod telling;
mod texts;

pub use laws::{entries_are_told, lost_lines_lose, winners_are_told};
pub use texts::inspect_lines;

//! Which selectors of a sheet match nothing, and which declarations are repeated, from the bytes of the sheet to lines.
#![tactic(auto)]

mod asking;
mod finding;
mod laws;
mod level;
mod lines;
mod repeating;
mod searching;
mod sorting;
mod telling;

pub use laws::{dead_are_told, told_dead_match_nothing, told_may_go};
pub use lines::lint_lines;

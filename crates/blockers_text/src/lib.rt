//! Which items of a style sheet stop the merges that are left, from the bytes of the sheet to lines.
#![tactic(auto)]

mod answers;
mod counting;
mod entries;
mod kinds;
mod laws;
mod level;
mod lines;
mod printing;
mod ranked;
mod seen;
mod stopped;
mod tallies;
mod tally;
mod told;
mod totals;

pub use laws::{alone_would_be_free, others_are_apart};
pub use lines::blockers_lines;

//! From a plan to what is written: the sheet of a merged text has the same winners in every legal document, and nothing
//! is left to do in it. The text is that of a sheet that was read and merged, each step the next one by true answers,
//! until nothing was left to do.
#![tactic(auto)]

mod merged;
mod reading;

pub use merged::{leading_makes_of, planned_is_merged};
pub use reading::{read_is_plannable, read_keeps_the_limits};

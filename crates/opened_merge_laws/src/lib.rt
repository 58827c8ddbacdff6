//! From plans to what is written, where blocks of media are opened: the sheet of a merged text has the same winners in
//! every legal document and scene, and nothing is left to do in it. The text is that of a sheet that was read and
//! merged, and each opened body of it by itself.
#![tactic(auto)]

mod bodies;
mod merged;

pub use bodies::{opened_bodies_stand_apart, planned_bodies_are_sound};
pub use merged::{planned_is_merged_opened, planned_is_told_opened};

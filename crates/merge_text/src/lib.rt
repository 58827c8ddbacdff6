//! The text of a merged sheet, from bytes to bytes. It reads, opens blocks of media, takes steps until nothing is left
//! to do, in the sheet and in each opened body, and prints.
#![tactic(auto)]

mod bodies;
mod counting;
mod merged;
mod planned;

pub use merged::{MergedText, merge_text, merge_text_within};

//! Merging by candidates. It takes the first free step that saves, one after the other, until none is left.
#![tactic(auto)]

mod barring;
mod following;
mod merging;
mod passing;
mod repeats;
mod trying;
mod watching;
mod working;

pub use merging::{Merged, merge, merge_within};

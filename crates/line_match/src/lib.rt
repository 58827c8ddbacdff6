//! Whether a selector matches the marked element of a document in lines. A line's elements are not written out: their
//! positions come from counts.
#![tactic(auto)]

mod climbing;
mod counts;
mod matching;
mod passing;
mod reaching;
mod recurrence;

pub use matching::matches_in;

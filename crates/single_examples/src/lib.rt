//! The documents that are tried for two selectors of one compound each: a child with the least numbers of siblings, and
//! the root. One of them shows that the selectors meet, if they do.
#![tactic(auto)]

mod empties;
mod example;
mod laws;
mod root;

pub use example::first_example;
pub use laws::{examples_show_meeting, meeting_selectors_pass};

//! A law of cuts: a part that its rule has again may go, whatever else the sheet has.
#![tactic(auto)]

mod repeats;

pub use repeats::repeats_are_free;

//! Laws on shapes: two selectors that match one target of a legal document have a small shape, and a shape that fits
//! two selectors gives a legal document in which both match one element. They are functions that do nothing.
#![tactic(auto)]

mod documents;
mod forced;
mod matching;
mod shrinking;

pub use documents::{shapes_are_short, shapes_show_meeting};
pub use forced::forced_compounds_suit;
pub use matching::selectors_that_meet_have_a_shape;
pub use shrinking::shapes_shrink;

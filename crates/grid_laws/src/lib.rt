//! A shape fits two selectors exactly where all its conditions hold of nodes of a grid and of numbers: laws, as
//! functions that do nothing.
#![tactic(auto)]

mod solving;

pub use solving::{shapes_are_solved, solved_has_a_shape, solved_shapes_fit};

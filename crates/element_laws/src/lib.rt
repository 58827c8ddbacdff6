//! The elements that are chosen for the slots of a shape suit them: a law, as a function that does nothing.
#![tactic(auto)]

mod choosing;

pub use choosing::chosen_elements_suit;

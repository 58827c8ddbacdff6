//! A list with spare places at its front, so that an element near the front comes out without a move of all elements after it.
#![tactic(auto)]

mod list;
mod moving;

pub use list::SpareList;

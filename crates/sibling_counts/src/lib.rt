//! The least numbers of siblings of an element that simple selectors ask for.
#![tactic(auto)]

mod least;
mod scan;
mod side;

pub use least::{Siblings, least_siblings};

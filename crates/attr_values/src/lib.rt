//! Values of one attribute that pass attribute tests as they are asked. Each test is asked to hold, or not to hold.
#![tactic(auto)]

mod asked;
mod passing;
mod separators;
mod solve;
mod start;
mod value;

pub use passing::passes_as_asked;
pub use solve::{Fits, ValueError, candidate_passes, solve_value};

//! The lines of a report: what a sheet had and has, how many steps were taken, and the blocked steps. Also the lines
//! that explain a move.
#![tactic(auto)]

mod blocked;
mod explaining;
mod lines;

pub use explaining::{Explanation, Word, explained};
pub use lines::report;

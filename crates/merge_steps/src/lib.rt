//! The steps of merging: which ones a sheet has, the sheet that each makes, and what each saves.
#![tactic(auto)]

mod applying;
mod edits;
mod listing;
mod members;
mod parts;
mod possible;

pub use applying::{apply, changes};
pub use edits::Change;
pub use listing::steps;
pub use possible::is_step;
pub use step_laws::Step;
pub use step_savings::saving;

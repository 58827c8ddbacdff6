//! How many bytes a step saves, with the lengths of a source's selectors at hand.
#![tactic(auto)]

mod lengths;
mod savings;

pub use lengths::KnownLengths;
pub use savings::{saved, saved_if_apart};

//! Laws on pairs of selectors: what the formula of a pair says of documents, and what every selector of the profile
//! keeps to. They are functions that do nothing.
#![tactic(auto)]

mod laws;
mod profiles;

pub use laws::meeting_satisfies_the_formula;
pub use profiles::{profile_has_names, profile_is_fittable, profile_keeps_the_limits};

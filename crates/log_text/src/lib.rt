//! A log that is to refute a formula, checked: from its text to the text of the answer.
#![tactic(auto)]

mod answer;
mod check;
mod error;
mod laws;

pub use check::{MAX_LOG_BYTES, check_text};
pub use error::CheckError;
pub use laws::{limit_is_defined, refuting_logs_pass, yes_refutes_the_formula};

//! Texts on the words of a command line: help, the version, and why words are refused.
#![tactic(auto)]

mod arguments;
mod commands;
mod ended;
mod purposes;
mod texts;
mod tips;

pub use texts::{VERSION, help_text, refusal_text, version_text};

//! Selectors from their texts (Selectors 3), with the reason where a text is outside the profile.
#![tactic(auto)]

mod arguments;
mod attributes;
mod classes;
mod compounds;
mod error;
mod negations;
mod parse;
mod pseudo_classes;
mod pseudo_elements;
mod reading;
mod refusals;
mod simples;
mod terms;
mod tokens;
mod types;

pub use error::SelError;
pub use parse::{parse_selector, read_selector};

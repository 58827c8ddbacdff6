//! Which declarations win in a given document, from bytes to bytes. It reads a document and a style sheet, and prints
//! the winners of the cascade for the marked element.
#![tactic(auto)]

mod fault;
mod laws;
mod lines;
mod reading;
mod split;
mod style;

pub use fault::{DocFault, StyleError};
pub use laws::{inputs_have_two_parts, winners_are_told};
pub use lines::{kept_count, push_specificity};
pub use reading::{read_document, read_source};
pub use split::split_input;
pub use style::{style_lines, too_long};

//! Prints a style sheet without the white space and the comments between its parts.
#![tactic(auto)]

mod notation;
mod output;
mod positions;
mod print;
mod selector;
mod tally;
mod terms;
mod walk;

pub use print::{decl_len, print_decl, print_len, print_selector, print_sheet, selector_len};

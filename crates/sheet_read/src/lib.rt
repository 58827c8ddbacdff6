//! Reads a style sheet from its bytes.
#![tactic(auto)]

mod declarations;
mod fault;
mod items;
mod lexing;
mod names;
mod read;
mod selectors;
mod signs;
mod values;

pub use fault::SheetError;
pub use lexing::lexemes_of;
pub use read::{read_sheet, read_with_lexemes};

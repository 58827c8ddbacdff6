//! Laws on the printed text of a selector and of the An+B notation: it is read back as what it was printed for, and it
//! is no longer than what that was read from. No function that reads or prints needs them.
#![tactic(auto)]

mod laws;
mod notations;

pub use laws::{
    selector_texts_are_lexed, selector_texts_are_short, selectors_read_back, tokens_stand_together,
};
pub use notations::{
    notation_text_is_shortest, notation_text_reads_back, notation_text_stands_before_signs,
};

//! Laws on the tokens of a text that need long proofs: where a token ends before another rest of the text, what a white
//! space after it does, and that the text of kept tokens is read back. They speak of definitions, and no function that
//! reads or prints needs them.
#![tactic(auto)]

mod laws;

pub use laws::{kept_text_is_read_back, parts_end_alike, solids_are_lexemes, space_behind};

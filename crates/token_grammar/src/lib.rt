//! A grammar of tokens above the definitions that read them: what text a token of each kind is, and that the tokens of
//! a text are, at each place, the longest that the standard takes there. The laws say that what is read is that. No
//! function that reads or prints needs them.
#![tactic(auto)]

mod laws;

pub use laws::{names_are_decoded, names_are_unescaped, tokens_are_those_of_the_grammar};

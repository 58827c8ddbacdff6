//! A grammar of sheets above the definitions that read them: which brackets match, and what items, declarations and
//! sheets are, as relations on lists of tokens. The laws say that what is read is that. No function that reads or prints
//! needs them.
#![tactic(auto)]

mod laws;

pub use laws::{
    brackets_match, faults_are_those_of_the_grammar, items_are_those_of_the_grammar,
    sheets_are_those_of_the_grammar,
};

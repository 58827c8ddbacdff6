//! Values, kept texts and heads of blocks up to comments and up to white space that says nothing.
#![tactic(auto)]

mod normal;
mod words;

pub use normal::{normal_head, normal_kept, normal_value};

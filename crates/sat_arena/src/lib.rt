//! Clauses in one buffer, with the lists of those that watch a literal threaded through them.
#![tactic(auto)]

mod arena;
mod links;
mod words;

pub use arena::Arena;

//! The kinds of steps of merging, and steps by their kind and two numbers.
#![tactic(auto)]

mod kind;

pub use kind::{Kind, kind_number, kind_of, step_of};

//! The shape of values that satisfy the formula of a pair.
#![tactic(auto)]

mod decode;
mod lists;
mod nodes;
mod rows;
mod slot;
mod slots;
mod values;

pub use decode::decode_shape;

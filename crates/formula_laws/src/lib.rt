//! The formula of a pair of selectors can be satisfied exactly where a shape fits both of them: laws, as functions that
//! do nothing.
#![tactic(auto)]

mod count;
mod deciding;
mod joint;
mod refused;

pub use count::Count;
pub use deciding::{
    formula_decides_shapes, formula_is_complete, formula_is_small, formula_is_sound,
    satisfying_shapes_fit,
};
pub use joint::Joint;
pub use refused::Refused;

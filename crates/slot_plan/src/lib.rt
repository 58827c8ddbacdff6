//! Shapes of pairs of selectors: how elements that match both are related. Also what a pair asks for before its shapes
//! are looked for.
#![tactic(auto)]

mod parts;
mod plan;
mod shape;
mod stepped;

pub use plan::{PairPlan, PlanError};
pub use shape::{Shape, SlotStep};

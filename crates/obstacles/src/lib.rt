//! What blocks a step of merging, and what a plan asks for it: whatever holds the answers for pairs of selectors.
#![tactic(auto)]

mod obstacle;
mod obstacles;
mod stopped;

pub use obstacle::{Obstacle, Other, PairPlace};
pub use obstacles::Obstacles;
pub use stopped::Stopped;

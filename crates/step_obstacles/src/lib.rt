//! What blocks a step of merging, by answers for pairs of selectors. The answers are asked for.
#![tactic(auto)]

mod answering;
mod behind;
mod bounded_pairs;
mod decl_masks;
mod facing;
mod held;
mod hinted;
mod hints;
mod known;
mod left_parts;
mod numbered_parts;
mod pair_obstacles;
mod searching;
mod selector_masks;
mod specificities;
mod step_search;
mod window_search;

pub use pair_obstacles::PairObstacles;
pub use step_search::window_of;

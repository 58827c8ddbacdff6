//! The plan of merging: the sheet that it leads to, how many steps it takes, and what blocks each step that is left.
#![tactic(auto)]

mod blocked;
mod planned;
mod planning;

pub use blocked::blocked_steps;
pub use planned::Plan;
pub use planning::plan;

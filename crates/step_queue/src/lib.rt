//! What a plan is made of: the queue of candidates, the watch list, barriers, and weights of rules.
//! One candidate stands for all steps of an item, instead of a look at each step.
#![tactic(auto)]

mod barriers;
mod candidate;
mod doubles;
mod heaviest;
mod queue;
mod rule_weights;
mod watch_list;

pub use barriers::{Barrier, Barriers};
pub use candidate::{Candidate, FIRST_ROOM, ROOM, Scope, later_weighs_less};
pub use doubles::are_decls_different;
pub use heaviest::Heaviest;
pub use queue::Queue;
pub use rule_weights::{RuleWeight, RuleWeights};
pub use step_kinds::Kind;
pub use watch_list::{Entry, WatchList};

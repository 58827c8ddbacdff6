//! Unit propagation by watched literals, over the clauses of an arena and a trail. A solver and a checker of its logs
//! both use it.
#![tactic(auto)]

mod nonempty;
mod propagation;
mod undoing;
mod watch;

pub use nonempty::has_empty;
pub use propagation::{propagate, propagate_entries};
pub use undoing::undo;
pub use watch::is_false;

//! The trail of a solver: the literals that are true, in the order in which they became so. Each has its level and the
//! clause that implied it.
#![tactic(auto)]

mod entry;
mod heap;
mod open;
mod places;
mod trail;

pub use entry::Entry;
pub use trail::Trail;

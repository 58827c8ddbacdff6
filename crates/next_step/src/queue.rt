//! What the queue of candidates has to do with steps: which step a candidate names, and which candidates are found.
//! A candidate has the kind of a step, the order keys of its items and what it saves. `naming` finds the step again.
//! `order` makes a candidate of a step and says which of two comes first. `found` has the first of those that a look finds.

pub(crate) mod found;
pub(crate) mod naming;
pub(crate) mod order;

pub use found::Found;
pub use naming::step_of_candidate;

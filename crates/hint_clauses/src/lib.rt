//! Hints: clauses that follow from the conditions of a pair of selectors, and let a solver see at once what sums of
//! digits hide.
#![tactic(auto)]

mod asked;
mod chains;
mod counted;
mod denied;
mod distances;
mod fronts;
mod gaps;
mod hints;
mod joints;
mod links;
mod refusals;
mod refused;
mod rests;
mod rises;
mod runs;
mod shared;

pub use hints::add_hints;

//! The common members of two sheets that weigh and come in another order: which of them are told.
#![tactic(auto)]

mod judging;
mod telling;
mod verdict;
mod walk;
mod weighing;
mod weight;

pub use telling::Told;
pub use verdict::Verdict;
pub use walk::told_of;

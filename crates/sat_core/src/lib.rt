//! A solver of formulas in conjunctive normal form that decides each one, unless its budget runs out. It learns a clause
//! from each conflict, and keeps a ledger of what it learned.
#![tactic(auto)]

mod analysis;
mod laws;
mod learning;
mod phases;
mod restarts;
mod shortening;
mod solver;
mod verdict;

pub use laws::ledger_is_short;
pub use solver::solve;
pub use verdict::Verdict;

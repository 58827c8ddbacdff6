//! The steps of a sheet that save bytes, kept up to date while steps are taken: for reports and `blockers`.
//! The plan looks for its steps by `next_step` instead.
#![tactic(auto)]

mod candidates;
mod cuts;
mod found;
mod numbered;
mod sifting;
mod trying;

pub use candidates::Candidates;

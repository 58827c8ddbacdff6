//! Laws on what stops the steps of a sheet: functions that do nothing, whose contracts are the laws, and the proofs of
//! these.
#![tactic(auto)]

mod counted;

pub use counted::each_blocked_step_is_counted;

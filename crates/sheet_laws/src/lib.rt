//! The laws of what a style sheet is read as: functions that do nothing, whose contracts are the laws, and the proofs
//! of these.
#![tactic(auto)]

mod reading;

pub use reading::read_is_sound;

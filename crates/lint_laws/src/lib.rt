//! Laws on what can go from a sheet without a change: functions that do nothing, whose contracts are the laws, and the
//! proofs of these.
//!
//! - `repeating`: declarations whose pairs all come again later.
//! - `cleaning`: the sheet without these, and without selectors that match nothing.
#![tactic(auto)]

mod cleaning;
mod repeating;

pub use cleaning::{cleaning_bodies_keeps_winners, cleaning_keeps_winners};
pub use repeating::{others_are_last, repeating_is_decided};

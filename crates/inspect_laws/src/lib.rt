//! Laws on what the rules of a sheet apply to an element, in the order of the cascade: functions that do nothing, whose
//! contracts are the laws, and the proofs of these.
#![tactic(auto)]

mod laws;

pub use laws::{
    first_wins, lost_never_wins, ranks_differ, rivals_are_in_one_group, told_winners_win,
};

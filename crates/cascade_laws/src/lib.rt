//! The laws of matching and of the cascade: functions that do nothing, whose contracts are the laws, and the proofs of
//! these.
//!
//! - `matching`, `winning`, `joining`, `families`: what matches, what wins, and what joining rules keeps.
//! - `meanings`: what kept items mean.
//! - `climbing`, `reaching`: what a selector finds on the way through a document in lines to its marked element.
//! - `expansion`: documents in lines as trees of runs.
#![tactic(auto)]

mod climbing;
mod expansion;
mod families;
mod joining;
mod matching;
mod meanings;
mod reaching;
mod winning;

pub use climbing::{matching_is_climbing, repeating_changes_nothing};
pub use expansion::{paths_lead_into_trees, trees_keep_the_rules, trees_stand_for_elements};
pub use families::relating_is_decided;
pub use joining::{
    alike_behind_an_item, alike_wins_alike, joining_a_set_keeps_winners, joining_applies_alike,
    joining_keeps_winners, order_decides_winner, pieces_do_not_count,
};
pub use matching::{matching_is_decided, passing_is_decided};
pub use meanings::{meanings_count_by_winners, sheet_means_its_winner};
pub use reaching::{Reached, Role, Standing, Surroundings};
pub use winning::{
    applied_is_what_applies, greatest_is_winner, no_winner_is_none_understood,
    outranking_is_decided, understanding_is_decided, winner_is_greatest,
};

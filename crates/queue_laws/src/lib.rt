//! Laws between the state of a plan by candidates and what it holds of the steps of its sheet.
//! The functions do nothing.
#![tactic(auto)]

mod barriers;
mod beside;
mod known;
mod mark_names;
mod passed;
mod reindexed;
mod remembering;

pub use barriers::{barred_may_be_watched, barriers_go_over, barriers_stay};
pub use beside::{
    cover_follows_joins, cover_goes_on, cover_is_of_each, homes_go_on, others_stay_covered,
};
pub use known::{
    answers_may_come, blocked_is_known, more_is_known, none_is_known, start_is_known,
    taken_is_known, watched_is_known,
};
pub use mark_names::{kept_are_renamed, marks_are_names};
pub use passed::{blocked_is_passed, more_is_passed, none_is_passed, passed_is_change};
pub use reindexed::taken_goes_over;
pub use remembering::{
    entries_are_found, more_are_remembered, one_more_is_remembered, remembered_goes_over,
    remembered_is_reactivated, untouched_is_kept,
};

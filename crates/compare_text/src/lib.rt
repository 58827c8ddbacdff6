//! Two selectors compared, from their texts to the text of the answer.
#![tactic(auto)]

mod answered;
mod compared;
mod laws;
mod logged;
mod reading;

pub use compared::compare_texts;
pub use laws::{
    disjoint_selectors_do_not_meet, logs_pass, overlap_shows_meeting, passed_logs_show_apartness,
};
pub use logged::compare_texts_with_log;

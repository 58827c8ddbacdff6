//! The program as a call: from the words of a command line, and from streams, to a status.
#![tactic(auto)]

mod commands;
mod laws;
mod placed;
mod running;
mod status;
mod tasks;
mod telling;
mod words;
mod writing;

pub use laws::{
    constant_counts_answer_no_fault, each_sheet_has_its_status, each_status_has_its_cause,
    held_answers_are_true, told_differences_are_true, words_decide_usage,
};
pub use running::{run, run_words};
pub use status::{LogFault, Status};
pub use words::words_after_name;

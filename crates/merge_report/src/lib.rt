//! The report of a merged sheet: what it had and has, and the steps that still save something, with what blocks each of
//! them.
#![tactic(auto)]

mod remaining;
mod reporting;

pub use reporting::{merge_report, merge_summary, spent_report};

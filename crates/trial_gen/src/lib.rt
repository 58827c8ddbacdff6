//! Makes sheets to try the program on: the same sheet for the same number, at each run.
#![tactic(auto)]

mod draws;
mod sheet;

pub use sheet::make_sheet;

//! Runs of cuts: the repeats of the one rule of a sheet, cut at once.
#![tactic(auto)]

mod choosing;
mod cutting;
mod finding;
mod keeping;
mod keys;
mod marks;
mod running;
mod seen;

pub use running::{Run, cut_repeats};

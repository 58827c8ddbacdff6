//! A law of runs of cuts: repeats of a rule that go together, and the steps that they are.
#![tactic(auto)]

mod runs;

pub use runs::runs_lead;

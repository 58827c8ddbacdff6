//! The document of a shape that fits two selectors: an example in which both match the marked element.
#![tactic(auto)]

mod elements;
mod example;
mod ids;
mod lines;
mod slots;

pub use example::build;

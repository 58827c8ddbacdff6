//! Whether an element passes a sequence of simple selectors, from its features and the counts of its siblings.
#![tactic(auto)]

mod attribute;
mod compound;
mod nth;
mod whereabouts;

pub use compound::passes_compound;
pub use whereabouts::Whereabouts;

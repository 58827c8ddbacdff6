//! The sheet while it is planned. Each item has a mark that identifies it while steps change the sheet in place.
#![tactic(auto)]

mod facts;
mod indexed;
mod left_masks;
mod marked;
mod marks;
mod parts;
mod putting;
mod taking;

pub use facts::Facts;
pub use indexed::{IndexedSheet, way_of_join};
pub use marks::Mark;

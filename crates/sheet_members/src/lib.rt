//! What two sheets have in common: their pairs and kept items laid flat, each where it comes last, and compared.
#![tactic(auto)]

mod comparing;
mod heads;
mod label;
mod layer;
mod laying;
mod listing;
mod marking;
mod occurrence;
mod table;

pub use comparing::{Common, Compared, compare};
pub use heads::{BlockHead, heads_of};
pub use label::Label;
pub use layer::{Layer, bodies_of, outer_layer};
pub use laying::occurrences_of;
pub use listing::{Member, members_of};
pub use marking::marked_all;
pub use occurrence::{Occurrence, Part};

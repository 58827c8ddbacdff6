//! Two sheets compared: what the second one lacks, has besides, or orders otherwise.
#![tactic(auto)]

mod compared;
mod comparing;
mod ends;
mod judging;
mod kept;
mod lacking;
mod members;
mod standing;
mod twins;
mod weight;

pub use compared::{Compared, Difference};
pub use comparing::compare;
pub use sheet_order::PairPlace;

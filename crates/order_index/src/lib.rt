//! What the steps of a sheet reverse, by an index that is made once for the sheet.
#![tactic(auto)]

mod entries;
mod index;
mod marked;
mod moving;
mod places;
mod step_window;
mod turning;
mod walking;

pub use index::Index;

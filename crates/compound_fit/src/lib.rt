//! The features of an element that passes one or two compounds, apart from its place and what is in it.
#![tactic(auto)]

mod answers;
mod attributes;
mod compound;
mod conditions;
mod flags;
mod free_name;
mod id;
mod kind;
mod laws;
mod table;

pub use compound::{FitError, fit};
pub use conditions::is_fittable;
pub use free_name::first_free;
pub use laws::{enough_code_points_are_left, parts_are_apart};
pub use table::FitTable;

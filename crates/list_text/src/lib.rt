//! The items of a style sheet with their numbers and places, from the bytes of the sheet to lines.
#![tactic(auto)]

mod laws;
mod level;
mod lines;
mod telling;
mod walking;

pub use laws::each_item_is_listed;
pub use lines::list_lines;

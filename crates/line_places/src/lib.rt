//! Places in a text by line and column, as editors show them, and texts that are safe to show on a terminal.
#![tactic(auto)]

mod counts;
mod laws;
mod lines;
mod place;
mod shown;

pub use laws::{
    columns_count_code_points, lines_part_the_text, places_are_in_their_lines,
    shown_has_no_controls,
};
pub use lines::{Lines, place_in};
pub use place::{Place, put_place};
pub use shown::put_shown;

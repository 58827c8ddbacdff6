//! What is found in two style sheets, from the bytes of both to the lines of the answer.
#![tactic(auto)]

mod error;
mod laws;
mod lines;
mod telling;

pub use error::SameError;
pub use laws::{reversed_pairs_show_order, same_texts_win_alike};
pub use lines::{MAX_BOTH, same_lines};

//! How two style sheets differ, all through, from the bytes of both to lines.
#![tactic(auto)]

mod counting;
mod printing;
mod reading;
mod sides;
mod telling;
mod texts;
mod winning;
mod word;
mod wording;

pub use same_text::SameError;
pub use texts::diff_lines;

//! The tokens of a text (CSS Syntax 3, section 4), read one at a time.
#![tactic(auto)]

mod characters;
mod comments;
mod escapes;
mod laws;
mod names;
mod numbers;
mod reader;
mod rules;
mod runs;
mod strings;
mod units;

pub use escapes::ends_open;
pub use laws::{
    parts_are_utf8, parts_join, parts_read_back, runs_are_longest, tokens_cover, tokens_restart,
};
pub use names::{decode, is_named};
pub use reader::{NotUtf8, Tokens};

//! Documents with one element marked, as texts that are printed and read.
#![tactic(auto)]

mod cuts;
mod element;
mod escapes;
mod heads;
mod laws;
mod line;
mod print;
mod read;
mod state;

pub use laws::{lines_end, texts_differ};
pub use print::print_doc;
pub use read::{DocError, read_doc};

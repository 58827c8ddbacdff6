//! Blocks of media whose bodies are sheets of their own: which ones are opened, and how a sheet with opened blocks is
//! printed.
#![tactic(auto)]

mod blocks;
mod heads;
mod laws;
mod media;
mod opening;
mod printing;
mod reading;
mod signs;

pub use heads::put_head;
pub use laws::{blocks_stay, merged_is_no_longer, opened_blocks_are_sheets};
pub use media::Media;
pub use opening::{open_media, open_media_in};
pub use printing::{print_opened, put_piece};
pub use reading::{Reading, reading_of, reading_with};

//! Laws on sheets whose blocks of media are opened: functions that do nothing, whose contracts are the laws, and the
//! proofs of these.
//!
//! - `again`: the printed text of such a sheet is read back, with the same blocks opened.
//! - `blocks`: the printed text of one opened block, by itself.
//! - `bodies`, `lengths`, `scenes`: what opened blocks mean, and how long they are.
//! - `texts`: which kept blocks are opened, by their kept text.
#![tactic(auto)]

mod again;
mod blocks;
mod bodies;
mod lengths;
mod scenes;
mod texts;

pub use again::opened_reads_back;
pub use blocks::blocks_read_back;
pub use bodies::bodies_read_back;
pub use lengths::opened_is_no_longer;
pub use scenes::{bodies_count_by_winners, scenes_give_meanings};
pub use texts::same_texts_are_opened_alike;

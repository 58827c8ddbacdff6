//! The calls of the program for other languages, over bytes and by the C calling convention: a static library. The header
//! `cssmin.h` says how to call them.
#![tactic(auto)]

mod cmp;
mod giving;
mod lint;
mod min;
mod min_report;
mod statuses;
mod told;
mod version;

pub use cmp::cssmin_cmp;
pub use lint::cssmin_lint;
pub use min::cssmin_min;
pub use min_report::cssmin_min_report;
pub use statuses::{DONE, NO_MEMORY, NO_ROOM, REFUSED};
pub use told::Told;
pub use version::cssmin_version;

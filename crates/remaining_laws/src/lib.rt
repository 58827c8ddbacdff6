//! Laws on what remains in a merged sheet: why each step that would still save bytes is blocked.
#![tactic(auto)]

mod remaining;

pub use remaining::remaining_steps_are_blocked;

//! Positions among siblings: the An+B notation of `:nth-child()`, its positions, and how far a gap between siblings has
//! to be looked at.
#![tactic(auto)]

mod gap;
mod limits;
mod membership;
mod notation;

pub use gap::{Bounds, reduce, reduction_keeps_members};
pub use limits::{MAX_WIDTH, bounds, bounds_are_tight};
pub use membership::member;
pub use notation::{AnbFault, notation_is_unambiguous, read_anb};

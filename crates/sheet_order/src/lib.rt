//! The order of a sheet: which pairs and kept items a step of merging reverses, and whether it may do so.
#![tactic(auto)]

mod comparing;
mod entries;
mod keys;
mod laws;
mod members;
mod moving;
mod pair_index;
mod pairs;
mod permitting;
mod places;
mod reversing;
mod sorting;
mod taking;

pub use comparing::{Ordered, is_kept, kept_before, weigh, weighs_kept};
pub use entries::{Counterpart, Reversal};
pub use laws::{allowed_steps_are_free, other_steps_are_blocked};
pub use moving::move_rule;
pub use pair_index::PairIndex;
pub use pairs::{Placed, last_pairs};
pub use permitting::{Allowed, judged, moved_of, permitted};
pub use places::{Moved, Other, PairPlace, Reversed};
pub use reversing::{narrow_all, narrow_place, ordered, reversed};
pub use sorting::{ascending, exceeds};
pub use step_laws::BlockCause;
pub use taking::moved_pairs;

//! The order of pairs and kept items in the part of a sheet that a step changes, before and after the step.
#![tactic(auto)]

mod behind;
mod ends;
mod ends_known;
mod kept;
mod left;
mod masked;
mod order;
mod own;
mod pair;
mod place;
mod reversing;
mod standing;
mod weighing;
mod window;

pub use ends_known::{Ends, KnownPair, unknown_pair};
pub use kept::KeptEnds;
pub use left::{Left, LeftDecls, LeftRule, LeftSelectors};
pub use pair::{PairRef, pair_of};
pub use place::Standing;
pub use weighing::{decls_weigh, same_specificity, weighs_kept};
pub use window::Window;

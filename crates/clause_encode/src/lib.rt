//! The formula of a pair of selectors, satisfied by some values exactly where a shape fits both of them.
#![tactic(auto)]

mod ids;
mod laws;
mod nodes;
mod pair;
mod path;

pub use laws::{limits_allow_plans, tables_are_ready};
pub use nodes::is_pair_fit;
pub use pair::{encode, numbering};

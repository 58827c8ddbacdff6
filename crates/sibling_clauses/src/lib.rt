//! The first variables of the formula of a pair of selectors, and its clauses on numbers of siblings, on the root and
//! on tests of positions.
#![tactic(auto)]

mod asked;
mod chains;
mod counts;
mod links;
mod numbering;
mod positions;
mod relations;
mod root;

pub use asked::{add_numbers, add_tests, numbers_asked};
pub use chains::{chain_of, links_of, simples_at};
pub use links::{both_fit, goes_up_at, is_above, left_fits, right_fits};
pub use numbering::Numbering;
pub use relations::{add_less, add_same, add_same_if, negations, with_first};
pub use root::add_root;

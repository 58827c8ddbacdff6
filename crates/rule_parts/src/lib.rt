//! Parts of rules: whether selectors and declarations are the same or among others, copies of them, and what they weigh.
#![tactic(auto)]

mod copies;
mod finding;
mod members;
mod sameness;
mod selector_keys;
mod selector_sets;
mod weights;

pub use copies::{
    both_decls, both_selectors, common_decls, copied_decls, copied_selectors, other_decls,
    other_selectors, shared,
};
pub use finding::find_rule;
pub use members::{are_decls_among, has_decl, has_selector};
pub use sameness::is_same_decl;
pub use selector_keys::SelectorKey;
pub use selector_sets::are_selectors_among;
pub use weights::{
    Lengths, common_decls_weight, decls_among_weight, decls_weight, new_selectors_weight,
    selectors_among_weight, selectors_weight,
};

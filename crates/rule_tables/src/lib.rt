//! Which rules of a sheet can be partners of a rule in a step of two rules, by tables of the rules by their parts.
#![tactic(auto)]

mod ahead;
mod digests;
mod entries;
mod laws;
mod losing;
mod members;
mod order_key_lists;
mod order_keys;
mod pairs;
mod partners;
mod shared_keys;
mod tables;

pub use ahead::{Ahead, Common, Met};
pub use digests::{decl_digest, decl_digests, selector_digest, selector_digests};
pub use laws::{
    decl_cuts_are_told, order_keyed_rules_stand, rules_are_order_keyed, selector_cuts_are_told,
    steps_have_partners,
};
pub use losing::{can_lose_decl, can_lose_selector};
pub use members::has_both;
pub use order_keys::OrderKeys;
pub use pairs::OrderKeyedRules;
pub use shared_keys::SharedKeys;
pub use tables::Tables;

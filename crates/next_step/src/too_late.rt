//! Steps that come too late to be tried: they do not come before the first of the others that were found.
//! What rules weigh limits what a step saves: `by_weights` takes what is put down of them, and `by_parts` adds it up.
//! `by_common` takes the declarations that two rules may have in common.
//! `by_order_keys` says how much steps may save and still come too late, by the order keys of their items.

pub(crate) mod by_common;
pub(crate) mod by_order_keys;
pub(crate) mod by_parts;
pub(crate) mod by_weights;

//! Order keys of the rules that have a declaration in common with a rule.

ghost use Rattle.std.specs.Prelude.{◌≡◌, ◌↔◌, ◌<◌, ℕ, IfOk, true};
ghost use Rattle.rule_tables.specs.Ahead.{IsAhead, SaysTheSame};
ghost use Rattle.rule_tables.specs.SharedKeys.{IsShared};

use crate::ahead::{Ahead, Common};
use crate::order_key_lists::{has_no_other, keys_above, keys_below};
use crate::order_keys::OrderKeys;
use std::alloc::{AllocError, Global};
use std::marker::Model;

/// Order keys of rules that have one of some declarations of a rule, and these declarations.
#[derive(Debug, Drop)]
pub(crate) struct SharedList<'a> {
    pub(crate) order_keys: OrderKeys<'a>,
    pub(crate) common: Common,
}

/// Order keys of rules that have one of the declarations of a rule, in lists that ascend.
#[derive(Debug, Drop)]
pub struct SharedKeys<'a> {
    pub(crate) lists: Vec<SharedList<'a>>,
}

impl<'a> Model for SharedKeys<'a> {
    ghost use Rattle.std.specs.Prelude.{List, map};
    ghost use Rattle.rule_tables.specs.Ahead.{AllAscend, Reached};
    ghost use Rattle.rule_tables.specs.SharedKeys.{shared};

    ghost Value = { List Reached };

    ghost view = { λ s. map shared s.lists.items };

    ghost invariant = { λ s. AllAscend (map shared s.lists.items) };
}

impl SharedKeys<'_> {
    /// Whether it is known that there is no other order key than this one.
    pub fn has_no_other(&self, own: u64) -> bool
        ensures { result ≡ true → (order_key : ℕ) → IsShared self.now order_key → order_key ≡ own }
    {
        for number in 0..self.lists.len() {
            let shared = &self.lists[number];
            if !has_no_other(shared.order_keys.list(), own) {
                return false;
            }
        }
        true
    }

    /// The order keys below this one. `Err(AllocError)` if memory is short.
    pub fn below(&self, alloc: Global, at: u64) -> Result<Ahead<'_>, AllocError>
        ensures ahead { IfOk result (λ ahead. (k : ℕ) → IsAhead ahead k ↔ (IsShared self.now k × (k < at))) }
        ensures same { IfOk result (λ ahead. SaysTheSame (λ k. k < at) self.now ahead) }
    {
        let mut ahead = Ahead::with_capacity(alloc, self.lists.len())?;
        for number in 0..self.lists.len() {
            let shared = &self.lists[number];
            ahead.put(keys_below(shared.order_keys.list(), at), shared.common)?;
        }
        Ok(ahead)
    }

    /// The order keys above this one. `Err(AllocError)` if memory is short.
    pub fn above(&self, alloc: Global, at: u64) -> Result<Ahead<'_>, AllocError>
        ensures ahead { IfOk result (λ ahead. (k : ℕ) → IsAhead ahead k ↔ (IsShared self.now k × (at < k))) }
        ensures same { IfOk result (λ ahead. SaysTheSame (λ k. at < k) self.now ahead) }
    {
        let mut ahead = Ahead::with_capacity(alloc, self.lists.len())?;
        for number in 0..self.lists.len() {
            let shared = &self.lists[number];
            ahead.put(keys_above(shared.order_keys.list(), at), shared.common)?;
        }
        Ok(ahead)
    }
}

//! Order keys of several lists, taken one after the other as they ascend.

ghost use Rattle.std.specs.Prelude.{◌≡◌, ◌≢◌, ◌↔◌, ◌+◌, ◌<◌, ◌≤◌, [], ℕ, IfNone, IfOk, IfSome, OnOk, map, true};
ghost use Rattle.std.specs.List.Sorted.{IsStrictlyIncreasing};
ghost use Rattle.rule_tables.specs.Ahead as spec;

use std::alloc::{AllocError, Global};
use std::marker::Model;

/// Declarations of a rule that another one may have too: how many they are, and what they weigh.
#[derive(Clone, Copy, Debug)]
pub struct Common {
    /// How many they are.
    pub count: usize,
    /// What they weigh, in bytes.
    pub weight: u64,
}

/// The order key of another rule, and the declarations that it may have too.
#[derive(Clone, Copy, Debug)]
pub struct Met {
    /// The order key.
    pub order_key: u64,
    /// The declarations. The rule with the order key has no other ones of the rule.
    pub common: Common,
}

/// Order keys of rules that have one of some declarations in common with a rule, and these declarations.
#[derive(Clone, Copy, Debug)]
struct Listed<'a> {
    order_keys: &'a [u64],
    common: Common,
}

/// No declarations.
fn none() -> Common
    ensures { result ≡ record { count = 0; weight = 0 } }
{
    Common {
        count: 0,
        weight: 0,
    }
}

/// The sum, or the greatest number if it is more.
pub(crate) fn capped_sum(one: u64, other: u64) -> u64
    ensures { spec.Reaches result (one + other) }
{
    one.saturating_add(other)
}

impl Common {
    /// The declarations of both, or the greatest numbers if they are more.
    pub fn with(self, other: Common) -> Common
        ensures count { spec.Reaches result.count (self.count + other.count) }
        ensures weight { spec.Reaches result.weight (self.weight + other.weight) }
    {
        Common {
            count: self.count.saturating_add(other.count),
            weight: capped_sum(self.weight, other.weight),
        }
    }
}

/// The first of these order keys and another one, if there are some.
fn sooner(best: Option<u64>, order_keys: &[u64]) -> Option<u64>
    requires { IsStrictlyIncreasing order_keys.now }
    ensures { spec.IsSooner best order_keys.now result }
{
    let Some((first, _behind)) = order_keys.split_first() else {
        return best;
    };
    let Some(other) = best else {
        return Some(*first);
    };
    if other <= *first {
        return best;
    }
    Some(*first)
}

/// The first of the order keys of lists that ascend, if there is one.
fn first_of(lists: &Vec<Listed<'_>>) -> Option<u64>
    requires { spec.AllAscend (map spec.reached lists.now.items) }
    ensures some { IfSome result (spec.IsFirst (map spec.reached lists.now.items)) }
    ensures none { IfNone result ((order_key : ℕ) → spec.IsAhead (map spec.reached lists.now.items) order_key → ⊥) }
{
    let mut best = None;
    for number in 0..lists.len() {
        let listed = &lists[number];
        best = sooner(best, listed.order_keys);
    }
    best
}

/// Whether a list begins with an order key.
fn starts_with(order_keys: &[u64], order_key: u64) -> bool
    ensures { result ≡ spec.starts_with order_keys.now order_key }
{
    match order_keys.split_first() {
        Some((first, _behind)) => *first == order_key,
        None => false,
    }
}

/// The same declarations, with those of a list if it begins with an order key.
fn with_first(common: Common, listed: &Listed<'_>, order_key: u64) -> Common
    ensures { spec.GoesWith common (spec.reached listed.now) order_key result }
{
    if starts_with(listed.order_keys, order_key) {
        return common.with(listed.common);
    }
    common
}

/// The declarations of the lists that begin with an order key.
fn common_of(lists: &Vec<Listed<'_>>, order_key: u64) -> Common
    ensures { spec.AreAllOfFirst (record { count = 0; weight = 0 }) (map spec.reached lists.now.items) order_key result }
{
    let mut common = none();
    for number in 0..lists.len() {
        let listed = &lists[number];
        common = with_first(common, listed, order_key);
    }
    common
}

/// The list without an order key, if it is the first one.
fn without(order_keys: &[u64], order_key: u64) -> &[u64]
    ensures { result.now ≡ spec.without order_key order_keys.now }
{
    let Some((first, behind)) = order_keys.split_first() else {
        return order_keys;
    };
    if *first == order_key {
        return behind;
    }
    order_keys
}

/// Takes an order key out of each list that begins with it.
fn pass_each(lists: &mut Vec<Listed<'_>>, order_key: u64)
    ensures { map spec.reached lists.new.items ≡ map (spec.passed order_key) (map spec.reached lists.old.items) }
{
    for number in 0..lists.len() {
        let listed = lists[number];
        lists[number] = Listed {
            order_keys: without(listed.order_keys, order_key),
            common: listed.common,
        };
    }
}

/// Whether some declarations with some more are no more than these, and weigh no more.
fn fit_in(most: Common, left: Common, more: Common) -> bool
    ensures { result ≡ true → spec.AreWithin (record { count = left.count + more.count; weight = left.weight + more.weight }) most }
{
    left.count <= most.count
        && left.weight <= most.weight
        && more.count <= most.count - left.count
        && more.weight <= most.weight - left.weight
}

/// The number of the longest of the lists whose declarations may be left out too. If there is none, it is any number.
fn longest_of(lists: &Vec<Listed<'_>>, left: Common, most: Common) -> usize {
    let mut longest = 0;
    let mut found = 0;
    for number in 0..lists.len() {
        let listed = &lists[number];
        if longest < listed.order_keys.len() && fit_in(most, left, listed.common) {
            longest = listed.order_keys.len();
            found = number;
        }
    }
    found
}

/// Leaves out the list of this number, if its declarations may be left out too. Returns what is left out then.
fn leave_list(
    lists: &mut Vec<Listed<'_>>,
    number: usize,
    left: Common,
    most: Common,
) -> Option<Common>
    ensures leaves { IfSome result (λ now. spec.LeavesOut (map spec.reached lists.old.items) left (map spec.reached lists.new.items) now) }
    ensures within { IfSome result (λ now. spec.AreWithin now most) }
    ensures fewer { IfSome result (λ now. spec.count_left (map spec.reached lists.new.items) < spec.count_left (map spec.reached lists.old.items)) }
    ensures none { IfNone result (map spec.reached lists.new.items ≡ map spec.reached lists.old.items) }
{
    if lists.len() <= number {
        return None;
    }
    let listed = lists[number];
    if listed.order_keys.is_empty() || !fit_in(most, left, listed.common) {
        return None;
    }
    lists[number] = Listed {
        order_keys: &[],
        common: listed.common,
    };
    Some(Common {
        count: left.count + listed.common.count,
        weight: left.weight + listed.common.weight,
    })
}

/// Leaves out lists, the longest first, as long as their declarations may be left out. Returns what is left out then.
fn leave_lists(lists: &mut Vec<Listed<'_>>, left: Common, most: Common) -> Common
    ensures leaves { spec.LeavesOut (map spec.reached lists.old.items) left (map spec.reached lists.new.items) result }
    ensures within { spec.AreWithin left most → spec.AreWithin result most }
    ensures no_more { spec.count_left (map spec.reached lists.new.items) ≤ spec.count_left (map spec.reached lists.old.items) }
{
    let mut now = left;
    'lists: loop {
        let number = longest_of(lists, now, most);
        match leave_list(lists, number, now, most) {
            Some(more) => now = more,
            None => return now,
        }
    }
}

/// Order keys of several lists. Each of the lists ascends. An order key that is in two of them is taken once.
#[derive(Debug, Drop)]
pub struct Ahead<'a> {
    lists: Vec<Listed<'a>>,
}

impl<'a> Model for Ahead<'a> {
    ghost use Rattle.std.specs.Prelude.{List, map};
    ghost use Rattle.rule_tables.specs.Ahead.{AllAscend, Reached, reached};

    ghost Value = { List Reached };

    ghost view = { λ a. map reached a.lists.items };

    ghost invariant = { λ a. AllAscend (map reached a.lists.items) };
}

impl<'a> Ahead<'a> {
    /// No order keys, with room for as many lists.
    pub(crate) fn with_capacity(alloc: Global, lists: usize) -> Result<Ahead<'a>, AllocError>
        ensures { IfOk result (λ a. a ≡ []) }
    {
        Ok(Ahead {
            lists: Vec::with_capacity(alloc, lists)?,
        })
    }

    /// Puts the order keys of a list, which ascend, to the others, with their declarations.
    pub(crate) fn put(&mut self, order_keys: &'a [u64], common: Common) -> Result<(), AllocError>
        requires { IsStrictlyIncreasing order_keys.now }
        ensures { OnOk result (spec.PutsList self.old (record { order_keys = order_keys.now; common = common }) self.new) }
    {
        if order_keys.is_empty() {
            return Ok(());
        }
        self.lists.push(Listed { order_keys, common })?;
        Ok(())
    }

    /// Leaves out lists, the longest first, as long as the declarations that are left out are no more than `most`, and weigh no
    /// more. Returns these declarations. Those of `left` were left out before.
    pub fn leave_out(&mut self, left: Common, most: Common) -> Common
        ensures leaves { spec.LeavesOut self.old left self.new result }
        ensures within { spec.AreWithin left most → spec.AreWithin result most }
        ensures no_more { spec.count_left self.new ≤ spec.count_left self.old }
    {
        leave_lists(&mut self.lists, left, most)
    }

    /// Takes out the first of the order keys that are left, or returns `None` if none is left.
    /// It says which declarations the lists are of that had it.
    pub fn next(&mut self) -> Option<Met>
        ensures first { IfSome result (λ met. spec.IsFirst self.old met.order_key) }
        ensures common { IfSome result (λ met. spec.AreAllAt self.old met.order_key met.common) }
        ensures rest { IfSome result (λ met. (k : ℕ) → spec.IsAhead self.new k ↔ (spec.IsAhead self.old k × (k ≢ met.order_key))) }
        ensures others { IfSome result (λ met. spec.SaysTheSame (λ k. k ≢ met.order_key) self.old self.new) }
        ensures fewer { IfSome result (λ _. spec.count_left self.new < spec.count_left self.old) }
        ensures none { IfNone result ((order_key : ℕ) → spec.IsAhead self.old order_key → ⊥) }
    {
        let Some(order_key) = first_of(&self.lists) else {
            return None;
        };
        let common = common_of(&self.lists, order_key);
        pass_each(&mut self.lists, order_key);
        Some(Met { order_key, common })
    }
}

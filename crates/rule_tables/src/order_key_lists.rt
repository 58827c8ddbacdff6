//! Lists of order keys under digests.

ghost use Rattle.std.specs.Prelude.{◌≡◌, ◌+◌, ◌-◌, ◌<◌, ◌≤◌, ◌↔◌, ◌⊎◌, ◌∷◌, [], ℕ, IfOk, IsTrue, MatchResult, Err, OnErr, OnOk, Some, drop, length, slice_get, slice_index, true};
ghost use Rattle.std.specs.List.{AllWithin, Contains, insert, remove};
ghost use Rattle.std.specs.List.Sorted.{IsStrictlyIncreasing};
ghost use Rattle.rule_tables.specs.Entries as spec;
ghost use Rattle.rule_tables.specs.Places.{IsPlaceAmong};

use crate::entries::Entry;
use mixing::Mixer;
use smallvec::SmallVec;
use std::alloc::{AllocError, Global};
use std::collections::HashMap;
use std::hash::BuildHasherDefault;
use std::marker::Model;

/// Where an order key is among order keys that ascend, or where it is to be put.
fn find_place(order_keys: &[u64], order_key: u64) -> Result<usize, usize>
    requires { IsStrictlyIncreasing order_keys.now }
    ensures { IsPlaceAmong order_keys.now order_key result }
{
    match order_keys.last() {
        Some(last) if *last < order_key => Err(order_keys.len()),
        _ => order_keys.binary_search(&order_key),
    }
}

/// Whether an order key is among order keys that ascend.
pub(crate) fn has_order_key(order_keys: &[u64], order_key: u64) -> bool
    requires { IsStrictlyIncreasing order_keys.now }
    ensures { IsTrue result ↔ Contains order_keys.now order_key }
{
    find_place(order_keys, order_key).is_ok()
}

/// Whether no other order key than this one is there.
pub(crate) fn has_no_other(order_keys: &[u64], own: u64) -> bool
    ensures { IsTrue result ↔ ((order_keys.now ≡ []) ⊎ (order_keys.now ≡ own ∷ [])) }
{
    match order_keys {
        [] => true,
        [order_key] => *order_key == own,
        _ => false,
    }
}

/// The shorter one of two lists.
pub(crate) fn shorter<'a>(order_keys: &'a [u64], others: &'a [u64]) -> &'a [u64]
    ensures { (result.now ≡ order_keys.now) ⊎ (result.now ≡ others.now) }
{
    if others.len() < order_keys.len() {
        return others;
    }
    order_keys
}

/// How many of these order keys, which ascend, are below another one.
fn count_below(order_keys: &[u64], at: u64) -> usize
    requires { IsStrictlyIncreasing order_keys.now }
    ensures few { result ≤ length order_keys.now }
    ensures below { (k : ℕ) → k < result → slice_index order_keys.now k < at }
    ensures from { (k : ℕ) → result ≤ k → k < length order_keys.now → at ≤ slice_index order_keys.now k }
{
    match find_place(order_keys, at) {
        Ok(place) => place,
        Err(place) => place,
    }
}

/// Those of the order keys, which ascend, that are below another one.
pub(crate) fn keys_below(order_keys: &[u64], at: u64) -> &[u64]
    requires { IsStrictlyIncreasing order_keys.now }
    ensures ascends { IsStrictlyIncreasing result.now }
    ensures below { (k : ℕ) → Contains result.now k ↔ (Contains order_keys.now k × (k < at)) }
{
    &order_keys[..count_below(order_keys, at)]
}

/// Those of the order keys, which ascend, that are not below another one.
fn keys_from(order_keys: &[u64], at: u64) -> &[u64]
    requires { IsStrictlyIncreasing order_keys.now }
    ensures ascends { IsStrictlyIncreasing result.now }
    ensures from { (k : ℕ) → Contains result.now k ↔ (Contains order_keys.now k × (at ≤ k)) }
{
    &order_keys[count_below(order_keys, at)..]
}

/// Those of the order keys, which ascend, that are above another one.
pub(crate) fn keys_above(order_keys: &[u64], at: u64) -> &[u64]
    requires { IsStrictlyIncreasing order_keys.now }
    ensures ascends { IsStrictlyIncreasing result.now }
    ensures above { (k : ℕ) → Contains result.now k ↔ (Contains order_keys.now k × (at < k)) }
{
    let rest = keys_from(order_keys, at);
    let Some((first, behind)) = rest.split_first() else {
        return rest;
    };
    if *first == at {
        return behind;
    }
    rest
}

/// Whether there are free places, and a place is in the first half of so many others.
fn is_room_in_front(free: usize, place: usize, count: usize) -> bool
    ensures { result ≡ true → 0 < free }
{
    free > 0 && place < count / 2
}

/// Moves the order keys from a place to before another one by one to the back, over the one there.
fn move_back(places: &mut [u64], from: usize, to: usize)
    requires order { from ≤ to }
    requires within { to < length places.old }
    ensures count { length places.new ≡ length places.old }
    ensures moved { drop (from + 1) places.new ≡ remove (drop from places.old) (to - from) }
{
    places.copy_within(from..to, from + 1);
}

/// Moves the order keys from a place to before another one by one to the front, and puts an order key where there is room then.
fn move_front(places: &mut [u64], from: usize, to: usize, order_key: u64)
    requires some { 0 < from }
    requires order { from ≤ to }
    requires within { to ≤ length places.old }
    ensures count { length places.new ≡ length places.old }
    ensures moved { drop (from - 1) places.new ≡ insert (drop from places.old) (to - from) order_key }
{
    places.copy_within(from..to, from - 1);
    places[to - 1] = order_key;
}

/// Order keys that ascend. One needs no memory. Places before the first are free, so that the first order keys are put in and
/// taken out as fast as the last.
#[derive(Debug, Drop)]
struct OrderKeyList {
    places: SmallVec<u64, 1>,
    free: usize,
}

impl Model for OrderKeyList {
    ghost use Rattle.std.specs.Prelude.{◌≤◌, List, ℕ, drop, length};
    ghost use Rattle.std.specs.List.Sorted.{IsStrictlyIncreasing};

    ghost Value = { List ℕ };

    ghost view = { λ l. drop l.free l.places.items };

    ghost invariant = { λ l. IsStrictlyIncreasing (drop l.free l.places.items) × (l.free ≤ length l.places.items) };
}

impl OrderKeyList {
    /// A list of one order key. Takes no memory.
    fn of_one(alloc: Global, order_key: u64) -> OrderKeyList
        ensures { result ≡ order_key ∷ [] }
    {
        let mut places = SmallVec::new(alloc);
        places.push_reserved(order_key);
        OrderKeyList { places, free: 0 }
    }

    /// The order keys.
    fn list(&self) -> &[u64]
        ensures list { result.now ≡ self.now }
        ensures ascends { IsStrictlyIncreasing result.now }
    {
        &self.places[self.free..]
    }

    /// Puts an order key in at a place.
    fn put_at(&mut self, place: usize, order_key: u64) -> Result<(), AllocError>
        requires { IsPlaceAmong self.old order_key (Err place) }
        ensures ok { OnOk result (self.new ≡ insert self.old place order_key) }
        ensures err { OnErr result (self.new ≡ self.old) }
    {
        let count = self.places.len() - self.free;
        let at = self.free + place;
        if is_room_in_front(self.free, place, count) {
            move_front(self.places.as_mut_slice(), self.free, at, order_key);
            self.free -= 1;
            return Ok(());
        }
        self.places.insert(at, order_key)?;
        Ok(())
    }

    /// Takes the order key at a place out.
    fn take_at(&mut self, place: usize)
        requires { place < length self.old }
        ensures { self.new ≡ remove self.old place }
    {
        let count = self.places.len() - self.free;
        let at = self.free + place;
        if place < count / 2 {
            move_back(self.places.as_mut_slice(), self.free, at);
            self.free += 1;
            return;
        }
        self.places.remove(at);
    }

    /// Puts an order key in, if it is not there.
    fn put(&mut self, order_key: u64) -> Result<(), AllocError>
        ensures ok { OnOk result (spec.Puts self.old (order_key ∷ []) self.new) }
        ensures err { OnErr result (self.new ≡ self.old) }
    {
        match find_place(self.list(), order_key) {
            Ok(_) => Ok(()),
            Err(place) => self.put_at(place, order_key),
        }
    }

    /// Takes an order key out, if it is there.
    fn take(&mut self, order_key: u64)
        ensures { spec.TakesOut self.old (order_key ∷ []) self.new }
    {
        if let Ok(place) = find_place(self.list(), order_key) {
            self.take_at(place);
        }
    }

    /// Whether there is no order key.
    fn is_empty(&self) -> bool
        ensures { IsTrue result ↔ (self.now ≡ []) }
    {
        self.free == self.places.len()
    }
}

/// Under each digest a list of order keys that ascend.
#[derive(Debug, Drop)]
pub(crate) struct OrderKeyLists {
    alloc: Global,
    lists: HashMap<u32, OrderKeyList, BuildHasherDefault<Mixer>>,
}

impl Model for OrderKeyLists {
    ghost use Rattle.std.specs.Prelude.{List, nat_eq};
    ghost use Rattle.std.specs.HashMap.{IsUnique};
    ghost use Rattle.rule_tables.specs.declared.entries.Entry.{Entry};

    ghost Value = { List Entry };

    ghost use Rattle.rule_tables.specs.Entries.{entries_of};

    ghost view = { λ l. entries_of l.lists.entries };

    ghost invariant = { λ l. IsUnique nat_eq l.lists };
}

impl OrderKeyLists {
    /// No order keys. Takes no memory.
    pub(crate) fn new(alloc: Global) -> OrderKeyLists
        ensures { result ≡ [] }
    {
        OrderKeyLists {
            alloc,
            lists: HashMap::with_hasher(alloc, BuildHasherDefault::new()),
        }
    }

    /// The order keys under a digest.
    pub(crate) fn under(&self, digest: u32) -> &[u64]
        ensures same { (order_key : ℕ) → Contains result.now order_key ↔ Contains self.now (spec.entry digest order_key) }
        ensures ascends { IsStrictlyIncreasing result.now }
    {
        match self.lists.get(&digest) {
            Some(list) => list.list(),
            None => &[],
        }
    }

    /// Puts an entry in, if it is not there.
    pub(crate) fn put(&mut self, entry: Entry) -> Result<(), AllocError>
        ensures ok { OnOk result (spec.Puts self.old (entry ∷ []) self.new) }
        ensures err { OnErr result (self.new ≡ self.old) }
    {
        match self.lists.get_mut(&entry.digest) {
            Some(list) => list.put(entry.order_key),
            None => {
                let list = OrderKeyList::of_one(self.alloc, entry.order_key);
                self.lists.insert(entry.digest, list)?;
                Ok(())
            }
        }
    }

    /// Takes an entry out, if it is there.
    pub(crate) fn take(&mut self, entry: Entry)
        ensures { spec.TakesOut self.old (entry ∷ []) self.new }
    {
        let Some(list) = self.lists.get_mut(&entry.digest) else {
            return;
        };
        list.take(entry.order_key);
        if list.is_empty() {
            self.lists.remove(&entry.digest);
        }
    }
}

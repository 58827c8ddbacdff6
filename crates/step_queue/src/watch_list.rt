//! Priorities that are on the watch list, under the pairs that block their steps.

ghost use Rattle.std.specs.Prelude.{◌≡◌, ◌⊎◌, ◌+◌, ◌*◌, ◌^◌, ◌<◌, ◌↔◌, [], IfOk, IsTrue, OnOk};
ghost use Rattle.std.specs.List.{Contains};
ghost use Rattle.step_queue.specs.WatchLists as spec;
ghost use Rattle.step_queue.specs.declared.watch_list.Entry as declared;

use crate::candidate::{Candidate, Scope};
use std::alloc::{AllocError, Global};
use std::cmp::Reverse;
use std::collections::BTreeSet;
use std::marker::Model;
use std::ops::Range;
use step_kinds::Kind;

/// A candidate that is on the watch list, under the digests of a pair that blocks its step. Those of one pair are side by side.
#[derive(Clone, Copy, Debug, PartialEq, Eq, PartialOrd, Ord, Drop)]
pub struct Entry {
    /// The digest of the pair's selector.
    pub selector: u32,
    /// Twice the digest of the pair's declaration, plus 1. So there is a free number right before it and right after it.
    pub decl: u64,
    /// The candidate.
    pub candidate: Candidate,
}

/// Returns the number of an entry for the digest of a declaration: twice the digest, plus 1.
fn place_of(decl: u32) -> u64
    ensures exact { result ≡ spec.place_of decl }
    ensures small { result < 2 ^ 34 }
{
    u64::from(decl) * 2 + 1
}

impl Entry {
    /// Whether it is under these digests.
    fn is_under(&self, selector: u32, decl: u32) -> bool
        ensures { result ≡ spec.is_under selector decl self.now }
    {
        self.selector == selector && self.decl == place_of(decl)
    }
}

/// Returns a bound of entries under a selector: an entry of this number for the declaration.
/// Under the same selector, entries with a greater number come after it, and those with a smaller one before it.
fn bound(selector: u32, decl: u64) -> Entry
    ensures selector { result.selector ≡ selector }
    ensures decl { result.decl ≡ decl }
{
    let candidate = Candidate {
        saving: Reverse(0),
        kind: Kind::DeclCut,
        first: 0,
        second: 0,
        owner: 0,
        scope: Scope::Owned,
        room: 0,
    };
    Entry {
        selector,
        decl,
        candidate,
    }
}

/// Candidates that are on the watch list under the digests of the pairs that block their steps, each there once.
/// Entries are never taken out: a candidate that is reactivated twice is only tried twice.
#[derive(Debug, Drop)]
pub struct WatchList {
    entries: BTreeSet<Entry>,
}

impl Model for WatchList {
    ghost use Rattle.std.specs.Prelude.{List};
    ghost use Rattle.step_queue.specs.declared.watch_list.Entry.{Entry};

    ghost Value = { List Entry };

    ghost view = { λ a. a.entries.keys };
}

impl WatchList {
    /// Returns the candidates that are on the watch list at the start: none.
    pub fn new(alloc: Global) -> WatchList
        ensures { result ≡ [] }
    {
        WatchList {
            entries: BTreeSet::new(alloc),
        }
    }

    /// Whether no candidate is on the watch list.
    pub fn is_empty(&self) -> bool
        ensures { IsTrue result ↔ (self.now ≡ []) }
    {
        self.entries.is_empty()
    }

    /// Puts a candidate on the watch list under the digests of a pair. What was on the watch list stays.
    /// It also stays after `Err(AllocError)`. Then the candidate itself may be on the watch list or not.
    pub fn put(&mut self, selector: u32, decl: u32, candidate: Candidate) -> Result<(), AllocError>
        ensures stay { (e : declared.Entry) → Contains self.old e → Contains self.new e }
        ensures put { OnOk result (Contains self.new (spec.entry selector decl candidate)) }
        ensures only { (e : declared.Entry) → Contains self.new e → Contains self.old e ⊎ (e ≡ spec.entry selector decl candidate) }
    {
        let decl = place_of(decl);
        self.entries.insert(Entry {
            selector,
            decl,
            candidate,
        })?;
        Ok(())
    }

    /// Returns the candidates that are on the watch list under the digests of a pair, in the order of the entries.
    pub fn under(
        &self,
        alloc: Global,
        selector: u32,
        decl: u32,
    ) -> Result<Vec<Candidate>, AllocError>
        ensures { IfOk result (λ candidates. candidates.items ≡ spec.candidates_under selector decl self.now) }
    {
        let place = place_of(decl);
        let start = bound(selector, place - 1);
        let end = bound(selector, place + 1);
        let mut found = Vec::new(alloc);
        let mut rest = self.entries.range(Range { start, end });
        'rest: while let Some(entry) = rest.next() {
            if entry.is_under(selector, decl) {
                found.push(entry.candidate)?;
            }
        }
        Ok(found)
    }
}

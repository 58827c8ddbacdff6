//! The trail itself.
ghost use Rattle.std.specs.Prelude.{◌≡◌, ◌≢◌, ◌+◌, ◌<◌, ◌≤◌, ◌^◌, ◌↔◌, ℕ, [], length, slice_get, IsTrue, IfOk, MatchOption, Some, None};
ghost use Rattle.cnf.specs.Lits.{is_below, positive};
ghost use Rattle.sat_trail.specs.Places.{place};
ghost use Rattle.sat_trail.specs.Trail.{lits, value_in, entry_of, level_in, reason_in, with_decided, with_implied, undone_to};

use crate::entry::Entry;
use crate::heap::Heap;
use crate::open::{first_open, put_back_from};
use crate::places::{append, forget_above};
use cnf::Lit;
use std::alloc::{AllocError, Global};
use std::marker::Model;

/// Which literals are true, in the order in which they became so. It is seen as an `Assignment`: the
/// number of variables, the level, and the entries, oldest first.
#[derive(Debug, Drop)]
pub struct Trail {
    vars: u32,
    level: u32,
    entries: Vec<Entry>,
    // for each literal's number the place of its entry
    places: Vec<Option<u32>>,
    // each variable without a value, and maybe others
    heap: Heap,
}

impl Model for Trail {
    ghost use Rattle.std.specs.Prelude.{vec_capacity};
    ghost use Rattle.sat_trail.specs.Trail.{Assignment};
    ghost use Rattle.sat_trail.specs.Open.{HasOpen};
    ghost use Rattle.sat_trail.specs.Places.{IsTrailInside};

    ghost Value = { Assignment };

    ghost view = { λ t. record { vars = t.vars; level = t.level; entries = t.entries.items } };

    ghost invariant = { λ t. IsTrailInside
        (record { vars = t.vars; level = t.level; entries = t.entries.items })
        (vec_capacity t.entries) t.places.items
        × HasOpen t.vars t.entries.items t.heap.is_in };
}

impl Trail {
    ghost use Rattle.sat_trail.specs.Trail.{IsTrail};

    /// A trail over the variables from 0 to `vars` - 1, without entries. `AllocError` where memory
    /// runs out; no later call takes memory.
    pub fn new(alloc: Global, vars: u32) -> Result<Trail, AllocError>
        requires { vars ≤ 2 ^ 30 }
        ensures { IfOk result (λ t. t ≡ record { vars = vars; level = 0; entries = [] }) }
    {
        let entries = Vec::with_capacity(alloc, vars as usize)?;
        let places = vec![in alloc; None; vars as usize + vars as usize]?;
        let heap = Heap::new(alloc, vars)?;
        Ok(Trail {
            vars,
            level: 0,
            entries,
            places,
            heap,
        })
    }

    /// The present level: how many decisions are on the trail. It also says what holds of every trail.
    pub fn level(&self) -> u32
        ensures value { result ≡ self.now.level }
        ensures trail { IsTrail self.now }
    {
        self.level
    }

    /// The number of entries, at most one for each variable.
    pub fn len(&self) -> u32
        ensures value { result ≡ length self.now.entries }
        ensures bound { result ≤ self.now.vars }
    {
        self.entries.len() as u32
    }

    /// Whether no literal is true.
    pub fn is_empty(&self) -> bool
        ensures { IsTrue result ↔ (self.now.entries ≡ []) }
    {
        self.entries.is_empty()
    }

    /// The literal of the k-th entry, counted from 0, the oldest first.
    pub fn entry(&self, k: u32) -> Lit
        requires { k < length self.now.entries }
        ensures literal { slice_get (lits self.now.entries) k ≡ Some result }
        ensures in_range { IsTrue (is_below self.now.vars result) }
    {
        self.entries[k as usize].lit
    }

    /// Whether a literal is true; None where its variable has no value.
    pub fn value(&self, lit: Lit) -> Option<bool>
        requires { IsTrue (is_below self.now.vars lit) }
        ensures { result ≡ value_in (lits self.now.entries) lit }
    {
        if self.place(lit.0 as usize).is_some() {
            Some(true)
        } else if self.place(lit.negation().0 as usize).is_some() {
            Some(false)
        } else {
            None
        }
    }

    /// The level of a variable, or None where it has no value.
    pub fn level_of(&self, var: u32) -> Option<u32>
        requires { var < self.now.vars }
        ensures { result ≡ level_in (entry_of self.now.entries var) }
    {
        match self.entry_of(var) {
            None => None,
            Some(entry) => Some(entry.level),
        }
    }

    /// The number of the clause that implied a variable's value, or None where it has none or was decided.
    pub fn reason(&self, var: u32) -> Option<usize>
        requires { var < self.now.vars }
        ensures { result ≡ reason_in (entry_of self.now.entries var) }
    {
        match self.entry_of(var) {
            None => None,
            Some(entry) => entry.reason,
        }
    }

    /// The entry of a variable.
    fn entry_of(&self, var: u32) -> Option<Entry>
        requires { var < self.now.vars }
        ensures { result ≡ entry_of self.now.entries var }
    {
        let positive = 2 * var as usize;
        match self.place(positive) {
            Some(place) => Some(self.entries[place as usize]),
            None => match self.place(positive + 1) {
                Some(place) => Some(self.entries[place as usize]),
                None => None,
            },
        }
    }

    /// The place of the entry of a literal's number.
    fn place(&self, number: usize) -> Option<u32>
        requires { number < self.now.vars + self.now.vars }
        ensures { result ≡ place self.now.entries number }
    {
        self.places[number]
    }

    /// Makes a literal true, and opens a level by it.
    pub fn decide(&mut self, lit: Lit)
        requires in_range { IsTrue (is_below self.old.vars lit) }
        requires open { value_in (lits self.old.entries) lit ≡ None }
        ensures { self.new ≡ with_decided self.old lit }
    {
        self.level += 1;
        let entry = Entry {
            lit,
            level: self.level,
            reason: None,
        };
        append(&mut self.entries, &mut self.places, entry);
    }

    /// Makes a literal true at the present level, implied by the clause of a number.
    pub fn imply(&mut self, lit: Lit, clause: usize)
        requires in_range { IsTrue (is_below self.old.vars lit) }
        requires open { value_in (lits self.old.entries) lit ≡ None }
        ensures { self.new ≡ with_implied self.old lit clause }
    {
        let entry = Entry {
            lit,
            level: self.level,
            reason: Some(clause),
        };
        append(&mut self.entries, &mut self.places, entry);
    }

    /// Takes back all entries of the levels above one.
    pub fn undo_to(&mut self, level: u32)
        requires { level ≤ self.old.level }
        ensures { self.new ≡ undone_to self.old level }
    {
        let kept = forget_above(&self.entries, &mut self.places, level);
        put_back_from(&mut self.heap, &self.entries, kept);
        self.entries.truncate(kept);
        self.level = level;
        self.heap.age();
    }

    /// Raises the activity of a variable, and by more the more often levels were taken back before. No clause says
    /// which variable `next_free` names. It takes the one with the highest activity; of two with the same, the lower.
    pub fn bump(&mut self, var: u32)
        requires { var < self.old.vars }
        ensures { self.new ≡ self.old }
    {
        self.heap.bump(var);
    }

    /// A variable without a value, or None where each has one.
    pub fn next_free(&mut self) -> Option<u32>
        ensures found { MatchOption result
            ((v : ℕ) → v < self.old.vars → value_in (lits self.old.entries) (positive v) ≢ None)
            (λ v. (v < self.old.vars)
            × (value_in (lits self.old.entries) (positive v) ≡ None)) }
        ensures same { self.new ≡ self.old }
    {
        first_open(&mut self.heap, &self.places)
    }
}

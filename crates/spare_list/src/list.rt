//! The list.

ghost use Rattle.std.specs.Prelude.{◌≡◌, ◌<◌, ◌≤◌, IfErr, Some, if◌then◌else◌, is_ok, length, slice_get, slice_set};
ghost use Rattle.std.specs.List.{insert, remove};

use crate::moving::{lower, raise};
use std::alloc::AllocFailed;
use std::marker::Model;
use std::mem;

/// A list with spare places at its front. Contracts see the list alone.
/// A spare place holds a value that no caller sees. The elements come after the spare places, in one piece.
#[derive(Debug, Drop)]
pub struct SpareList<T> {
    slots: Vec<T>,
    first: usize,
}

impl<T> Model for SpareList<T> {
    ghost use Rattle.std.specs.Prelude.{List, ◌≤◌, drop, length};

    ghost Value = { List T };

    ghost view = { λ l. drop l.first l.slots.items };

    ghost invariant = { λ l. l.first ≤ length l.slots.items };
}

/// Returns whether an edit at this place of a list of so many elements is cheaper by its front than by its end.
fn is_near_front(at: usize, len: usize) -> bool {
    at < len / 4
}

impl<T> SpareList<T> {
    /// Returns the list of these elements. It has no spare place.
    pub fn new(slots: Vec<T>) -> SpareList<T>
        ensures { result ≡ slots.items }
    {
        SpareList { slots, first: 0 }
    }

    /// Returns the elements.
    pub fn as_slice(&self) -> &[T]
        ensures { result.now ≡ self.now }
    {
        &self.slots[self.first..]
    }

    /// Returns the number of elements.
    pub fn len(&self) -> usize
        ensures { result ≡ length self.now }
    {
        self.slots.len() - self.first
    }

    /// Puts an element at this place, from 0, and returns the one that was there.
    pub fn set(&mut self, at: usize, value: T) -> T
        requires { at < length self.old }
        ensures was { slice_get self.old at ≡ Some result }
        ensures list { self.new ≡ slice_set self.old at value }
    {
        let slot = self.first + at;
        mem::replace(&mut self.slots[slot], value)
    }
}

impl<T: Drop> SpareList<T> {
    /// Takes the element of this place, from 0, out of the list, and returns it.
    /// `filler` may be kept in a spare place, or is dropped. It takes no memory.
    pub fn remove(&mut self, at: usize, filler: T) -> T
        requires { at < length self.old }
        ensures was { slice_get self.old at ≡ Some result }
        ensures list { self.new ≡ remove self.old at }
    {
        let slot = self.first + at;
        if is_near_front(at, self.slots.len() - self.first) {
            lower(&mut self.slots, slot, self.first);
            let first = self.first;
            self.first += 1;
            mem::replace(&mut self.slots[first], filler)
        } else {
            drop(filler);
            self.slots.remove(slot)
        }
    }

    /// Puts an element before that of this place, from 0, or at the end.
    /// `Err` has the element if memory is short. The list stays the same then.
    pub fn insert(&mut self, at: usize, value: T) -> Result<(), AllocFailed<T>>
        requires { at ≤ length self.old }
        ensures list { self.new ≡ (if is_ok result then insert self.old at value else self.old) }
        ensures value_returned { IfErr result (λ failed. failed.value ≡ value) }
    {
        let slot = self.first + at;
        if self.first > 0 && is_near_front(at, self.slots.len() - self.first) {
            self.first -= 1;
            self.slots[self.first] = value;
            raise(&mut self.slots, self.first, slot - 1);
            Ok(())
        } else {
            self.slots.insert(slot, value)
        }
    }

    /// Returns the elements. It takes no memory.
    pub fn into_vec(self) -> Vec<T>
        ensures { result.items ≡ self }
    {
        let SpareList { mut slots, first } = self;
        let len = slots.len() - first;
        slots.rotate_left(first);
        slots.truncate(len);
        slots
    }
}

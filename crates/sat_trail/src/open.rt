//! The variables without a value, in the heap.
ghost use Rattle.std.specs.Prelude.{◌≡◌, ◌+◌, ◌<◌, ◌≤◌, ℕ, true, false, length, slice_get, slice_index_or, IfSome, IfNone, Some};
ghost use Rattle.cnf.specs.Lits.{variable};
ghost use Rattle.sat_trail.specs.Open.{IsOpen};

use crate::entry::Entry;
use crate::heap::Heap;

/// The first variable without a place for either of its literals, or None where there is none. It takes those before it
/// out of the heap.
pub(crate) fn first_open(heap: &mut Heap, places: &[Option<u32>]) -> Option<u32>
    requires table { length places.now ≡ length heap.old.is_in + length heap.old.is_in }
    requires in_heap { (v : ℕ) → v < length heap.old.is_in → IsOpen places.now v
        → slice_index_or heap.old.is_in v false ≡ true }
    ensures open { IfSome result (λ v. (v < length heap.old.is_in) × IsOpen places.now v) }
    ensures none { IfNone result ((v : ℕ) → v < length heap.old.is_in → IsOpen places.now v → ⊥) }
    ensures size { length heap.new.is_in ≡ length heap.old.is_in }
    ensures in_heap { (v : ℕ) → v < length heap.old.is_in → IsOpen places.now v
        → slice_index_or heap.new.is_in v false ≡ true }
{
    'first: while let Some(var) = heap.first() {
        let number = var as usize + var as usize;
        if places[number].is_none() && places[number + 1].is_none() {
            return Some(var);
        }
        heap.remove_first();
    }
    None
}

/// Puts the variables of the entries from a place on back into the heap.
pub(crate) fn put_back_from(heap: &mut Heap, entries: &[Entry], place: usize)
    requires { (k : ℕ) (e : Entry) → slice_get entries.now k ≡ Some e
        → variable e.lit < length heap.old.is_in }
    ensures size { length heap.new.is_in ≡ length heap.old.is_in }
    ensures kept { (v : ℕ) → slice_index_or heap.old.is_in v false ≡ true
        → slice_index_or heap.new.is_in v false ≡ true }
    ensures put_back { (k : ℕ) (e : Entry) → place ≤ k → slice_get entries.now k ≡ Some e
        → slice_index_or heap.new.is_in (variable e.lit) false ≡ true }
{
    for k in place..entries.len() {
        heap.put_back(entries[k].lit.variable());
    }
}

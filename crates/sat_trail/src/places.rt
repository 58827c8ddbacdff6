//! The table of the places of entries, and how it grows and shrinks with them.
ghost use Rattle.std.specs.Prelude.{◌≡◌, ◌+◌, ◌<◌, ◌≤◌, ◌^◌, ℕ, ◌∷◌, [], ◌++◌, length, take, nat_eq, slice_get, slice_set, vec_capacity, IfSome, Some};
ghost use Rattle.std.specs.List.{IsDistinct};
ghost use Rattle.sat_trail.specs.Places.{IsPlaced};
ghost use Rattle.sat_trail.specs.Trail.{up_to, variables, RiseTo};

use crate::entry::Entry;

/// Adds an entry after the others, and its place.
pub(crate) fn append(entries: &mut Vec<Entry>, places: &mut Vec<Option<u32>>, entry: Entry)
    requires room { length entries.old.items < vec_capacity entries.old }
    requires small { length entries.old.items < 2 ^ 30 }
    requires in_table { entry.lit.0 < length places.old.items }
    ensures entries { entries.new.items ≡ entries.old.items ++ entry ∷ [] }
    ensures capacity { vec_capacity entries.old ≤ vec_capacity entries.new }
    ensures places { places.new.items
        ≡ slice_set places.old.items entry.lit.0 (Some (length entries.old.items)) }
{
    places[entry.lit.0 as usize] = Some(entries.len() as u32);
    entries.push(entry).unwrap();
}

/// Clears the places of the entries above a level, and answers how many entries stay.
pub(crate) fn forget_above(entries: &[Entry], places: &mut Vec<Option<u32>>, level: u32) -> usize
    requires rise { (top : ℕ) × RiseTo 0 entries.now top }
    requires distinct { IsDistinct nat_eq (variables entries.now) }
    requires in_table { (k : ℕ) (e : Entry) → slice_get entries.now k ≡ Some e
        → e.lit.0 < length places.old.items }
    requires placed { IsPlaced entries.now places.old.items }
    ensures kept { take result entries.now ≡ up_to level entries.now }
    ensures bound { result ≤ length entries.now }
    ensures placed { IsPlaced (take result entries.now) places.new.items }
    ensures size { length places.new.items ≡ length places.old.items }
{
    let mut kept = entries.len();
    while kept > 0 && entries[kept - 1].level > level {
        kept -= 1;
        places[entries[kept].lit.0 as usize] = None;
    }
    kept
}

//! What is known of where pairs are while the items of a window are looked at.

ghost use Rattle.std.specs.Prelude.{◌≡◌, ◌↔◌, IfOk, IsTrue};
ghost use Rattle.std.specs.List.{All};
ghost use Rattle.step_obstacles.specs.Known.{FacedStands, IsEntry, IsKnown, IsNoted};
ghost use Rattle.css_model.specs.declared.sheet.Decl.{Decl};
ghost use Rattle.step_obstacles.specs.Turns.{Faces};
ghost use Rattle.window_order.specs.Places.{unknown};
ghost use Rattle.window_order.specs.declared.window.Window as windows;

use crate::facing::Facing;
use obstacles::PairPlace;
use std::alloc::{AllocError, Global};
use window_order::{KnownPair, Standing, Window, unknown_pair};

/// What is known of the pair at a place.
#[derive(Clone, Copy)]
pub(crate) struct Entry {
    /// The place.
    pub(crate) place: PairPlace,
    /// Where the pair is.
    pub(crate) standing: KnownPair,
}

/// What is known of pairs. A pair has one slot, by its place, which others may have too; of these the last noted is
/// known. The slots are made when the first is noted.
#[derive(Drop)]
pub(crate) struct Known {
    /// The entries in their slots.
    pub(crate) entries: Vec<Entry>,
}

/// A table in which nothing is known.
pub(crate) fn nothing_known(alloc: Global) -> Known
    ensures { (w : windows.Window) → IsKnown w result }
{
    Known {
        entries: Vec::new(alloc),
    }
}

/// An entry of which nothing is known.
fn empty_entry() -> Entry
    ensures { result.standing ≡ unknown }
{
    Entry {
        place: PairPlace {
            item: 0,
            sel: 0,
            decl: 0,
        },
        standing: unknown_pair(),
    }
}

/// How many slots are made for so many pairs: a power of two.
fn room_for(pairs: usize) -> usize {
    if pairs <= 8 {
        16
    } else if pairs <= 64 {
        128
    } else if pairs <= 512 {
        1024
    } else if pairs <= 4096 {
        8192
    } else {
        65536
    }
}

/// So many empty entries. `AllocError` where memory is short.
fn empty_entries(alloc: Global, count: usize) -> Result<Vec<Entry>, AllocError>
    ensures { IfOk result (λ list. All (λ e. e.standing ≡ unknown) list.items) }
{
    let mut list = Vec::with_capacity(alloc, count)?;
    for _ in 0..count {
        list.push(empty_entry())?;
    }
    Ok(list)
}

/// How many slots there are.
fn slots_in(known: &Known) -> usize {
    known.entries.len()
}

/// The slot of a place in a rule with so many selectors, among so many slots, a power of two.
fn slot_of(place: PairPlace, selectors: usize, slots: usize) -> usize {
    let number = (place.decl as usize)
        .wrapping_mul(selectors)
        .wrapping_add(place.sel as usize);
    let spread = number.wrapping_add((place.item as usize).wrapping_mul(0x9e37_79b1));
    spread & slots.wrapping_sub(1)
}

/// Whether two places are the same.
fn same_place(first: PairPlace, second: PairPlace) -> bool
    ensures { IsTrue result ↔ first ≡ second }
{
    first.item == second.item && first.sel == second.sel && first.decl == second.decl
}

/// What an entry says of a place.
#[tactic(auto, using(crate::proofs::Noted::unknown_noted))]
fn told_by(entry: &Entry, place: PairPlace) -> KnownPair
    ensures { (w : windows.Window) → IsEntry w entry.now → IsNoted w place result }
{
    if same_place(entry.place, place) {
        entry.standing
    } else {
        unknown_pair()
    }
}

/// What is known of the pair at a place of a rule with so many selectors.
#[tactic(auto, using(crate::proofs::Noted::unknown_noted))]
pub(crate) fn noted(known: &Known, place: PairPlace, selectors: usize) -> KnownPair
    ensures { (w : windows.Window) → IsKnown w known.now → IsNoted w place result }
{
    match known
        .entries
        .get(slot_of(place, selectors, slots_in(known)))
    {
        Some(entry) => told_by(entry, place),
        None => unknown_pair(),
    }
}

/// Puts an entry to its slot.
fn put(known: &mut Known, slot: usize, entry: Entry)
    ensures { (w : windows.Window) → IsKnown w known.old → IsEntry w entry → IsKnown w known.new }
{
    if slot < known.entries.len() {
        known.entries[slot] = entry;
    }
}

/// Makes the slots, if there are none, for so many pairs. `AllocError` where memory is short.
#[tactic(auto, using(crate::proofs::Noted::all_unknown))]
fn make_slots(alloc: Global, known: &mut Known, pairs: usize) -> Result<(), AllocError>
    ensures { (w : windows.Window) → IsKnown w known.old → IsKnown w known.new }
{
    if known.entries.len() == 0 {
        known.entries = empty_entries(alloc, room_for(pairs))?;
    }
    Ok(())
}

/// Notes where the pair at a place of a rule with so many selectors and pairs is, if it is known. `AllocError` where
/// memory is short.
pub(crate) fn note(
    alloc: Global,
    known: &mut Known,
    place: PairPlace,
    standing: KnownPair,
    selectors: usize,
    pairs: usize,
) -> Result<(), AllocError>
    ensures { (w : windows.Window) → IsKnown w known.old → IsNoted w place standing → IsKnown w known.new }
{
    if let None = standing.ends {
        return Ok(());
    }
    make_slots(alloc, known, pairs)?;
    let slot = slot_of(place, selectors, slots_in(known));
    put(known, slot, Entry { place, standing });
    Ok(())
}

/// What the item of a place tells of its pair, before anything is looked for.
pub(crate) fn own_pair(window: &Window<'_>, place: PairPlace) -> KnownPair
    ensures { IsNoted window.now place result }
{
    KnownPair {
        ends: None,
        standing: window.standing_of(place.item),
    }
}

/// What is noted of the pair at a place, or else what its item tells.
pub(crate) fn or_own(window: &Window<'_>, place: PairPlace, told: KnownPair) -> KnownPair
    requires { IsNoted window.now place told }
    ensures { IsNoted window.now place result }
{
    match told.standing {
        Standing::Unasked => KnownPair {
            ends: told.ends,
            standing: window.standing_of(place.item),
        },
        _ => told,
    }
}

/// What is known of what is faced, before anything is looked for.
pub(crate) fn own_faced(window: &Window<'_>, facing: &Facing<'_>) -> KnownPair
    ensures { (d : Decl) → Faces window.now d facing.now → FacedStands window.now facing.now result }
{
    match facing {
        Facing::Pair(_, place, _) => own_pair(window, *place),
        Facing::Kept(_) => unknown_pair(),
    }
}

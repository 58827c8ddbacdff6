//! What blocked earlier steps, by the rules that they moved. It is looked at first, and says nothing for sure.

use css_model::{Item, Rule};
use obstacles::{Obstacle, Other, PairPlace};
use std::alloc::{AllocError, Global};
use step_laws::Step;

/// By how many numbers further up and down what blocked is looked for. Most steps shift it by few.
const NEAR: u32 = 16;

/// Which pairs of a rule a step moves, and where to.
#[derive(Clone, Copy, Debug)]
pub(crate) enum Move {
    /// All, as they are elsewhere too.
    Away,
    /// All, up to another rule.
    Up,
    /// All, down to another rule.
    Down,
    /// Those that are common with another rule, to it.
    Common,
}

/// A rule that a step moves. The places mostly stay while other rules are merged.
#[derive(Clone, Copy, Debug)]
pub(crate) struct Mover {
    /// Where its first selector begins in the source.
    selector: u32,
    /// Where its first declaration begins in the source.
    decl: u32,
    /// What of it is moved.
    way: Move,
}

/// What blocked a step.
#[derive(Clone, Copy, Debug)]
pub(crate) struct Hint {
    /// What the step moved.
    mover: Mover,
    /// What blocked.
    obstacle: Obstacle,
    /// Where the other selector, or the kept item, begins in the source.
    start: u32,
}

/// What blocked earlier steps. What is moved has one slot, which others may have too; of these the last noted is known.
/// The slots are made when the first is noted.
#[derive(Debug, Drop)]
pub(crate) struct Hints {
    /// The hints in their slots.
    slots: Vec<Option<Hint>>,
}

/// No hint. Takes no memory.
pub(crate) fn no_hints(alloc: Global) -> Hints {
    Hints {
        slots: Vec::new(alloc),
    }
}

/// What a step moves of a rule.
pub(crate) fn move_of(step: &Step) -> Move {
    match *step {
        Step::CutDecl { .. } | Step::CutSel { .. } => Move::Away,
        Step::JoinSelUp { .. } | Step::JoinDeclUp { .. } => Move::Up,
        Step::JoinSelDown { .. } | Step::JoinDeclDown { .. } => Move::Down,
        Step::Share { .. } => Move::Common,
    }
}

/// A rule that is moved in this way.
pub(crate) fn mover_of(rule: &Rule, way: Move) -> Mover {
    let selector = match rule.selectors.first() {
        Some(item) => item.piece.start,
        None => 0,
    };
    let decl = match rule.decls.first() {
        Some(item) => item.name.start,
        None => 0,
    };
    Mover {
        selector,
        decl,
        way,
    }
}

/// A number of its own for each way.
fn number_of(way: Move) -> usize {
    match way {
        Move::Away => 0,
        Move::Up => 1,
        Move::Down => 2,
        Move::Common => 3,
    }
}

/// Whether two rules are moved in one way, and are the same as far as their places show.
fn same_mover(one: Mover, other: Mover) -> bool {
    one.selector == other.selector
        && one.decl == other.decl
        && number_of(one.way) == number_of(other.way)
}

/// How many slots are made for a sheet of so many items: a power of two.
fn room_for(items: usize) -> usize {
    if items <= 16 {
        64
    } else if items <= 128 {
        512
    } else if items <= 1024 {
        4096
    } else {
        16384
    }
}

/// The slot of what is moved, among so many slots, a power of two.
fn slot_of(mover: Mover, slots: usize) -> usize {
    let spread = (mover.selector as usize)
        .wrapping_mul(0x9e37_79b1)
        .wrapping_add(mover.decl as usize);
    let number = spread.wrapping_mul(4).wrapping_add(number_of(mover.way));
    number & slots.wrapping_sub(1)
}

/// What blocked a step that moved the same.
pub(crate) fn hint_of(hints: &Hints, mover: Mover) -> Option<Hint> {
    match hints.slots.get(slot_of(mover, hints.slots.len())) {
        Some(Some(hint)) => {
            if same_mover(hint.mover, mover) {
                Some(*hint)
            } else {
                None
            }
        }
        _ => None,
    }
}

/// So many empty slots. `AllocError` where memory is short.
fn empty_slots(alloc: Global, count: usize) -> Result<Vec<Option<Hint>>, AllocError> {
    let mut list = Vec::with_capacity(alloc, count)?;
    for _ in 0..count {
        list.push(None)?;
    }
    Ok(list)
}

/// Puts a hint to its slot.
fn put_hint(hints: &mut Hints, hint: Hint) {
    let slot = slot_of(hint.mover, hints.slots.len());
    if slot < hints.slots.len() {
        hints.slots[slot] = Some(hint);
    }
}

/// Where the selector at a place, or a kept item, begins in the source.
fn start_of(items: &[Item], other: &Other) -> Option<u32> {
    match other {
        Other::Pair(place) => match items.get(place.item as usize) {
            Some(Item::Rule(rule)) => match rule.selectors.get(place.sel as usize) {
                Some(item) => Some(item.piece.start),
                None => None,
            },
            _ => None,
        },
        Other::Kept(number) => match items.get(*number as usize) {
            Some(Item::KeptRule(rule)) => Some(rule.piece.start),
            Some(Item::KeptBlock(piece)) => Some(piece.start),
            _ => None,
        },
    }
}

/// Notes what blocks what is moved of a rule of these items.
fn note_obstacle(hints: &mut Hints, items: &[Item], mover: Mover, obstacle: Obstacle) {
    match start_of(items, &obstacle.other) {
        Some(start) => put_hint(
            hints,
            Hint {
                mover,
                obstacle,
                start,
            },
        ),
        None => {}
    }
}

/// Makes the slots, if there are none, for a sheet of so many items. `AllocError` where memory is short.
fn make_slots(alloc: Global, hints: &mut Hints, items: usize) -> Result<(), AllocError> {
    if hints.slots.len() == 0 {
        hints.slots = empty_slots(alloc, room_for(items))?;
    }
    Ok(())
}

/// Notes what blocks what is moved of a rule of these items, if something does. `AllocError` where memory is short.
pub(crate) fn note_found(
    alloc: Global,
    hints: &mut Hints,
    items: &[Item],
    mover: Mover,
    found: Option<Obstacle>,
) -> Result<(), AllocError> {
    if let Some(obstacle) = found {
        make_slots(alloc, hints, items.len())?;
        note_obstacle(hints, items, mover, obstacle);
    }
    Ok(())
}

/// The same item so many numbers further up or down.
fn moved_by(other: &Other, distance: u32, upwards: bool) -> Other {
    match other {
        Other::Pair(place) => Other::Pair(PairPlace {
            item: number_by(place.item, distance, upwards),
            sel: place.sel,
            decl: place.decl,
        }),
        Other::Kept(number) => Other::Kept(number_by(*number, distance, upwards)),
    }
}

/// The number that is less or more by so much.
fn number_by(number: u32, distance: u32, upwards: bool) -> u32 {
    if upwards {
        number.saturating_sub(distance)
    } else {
        number.saturating_add(distance)
    }
}

/// Whether what blocked is at a place, as far as its place in the source shows.
fn is_there(items: &[Item], hint: &Hint, other: &Other) -> bool {
    match start_of(items, other) {
        Some(start) => start == hint.start,
        None => false,
    }
}

/// Where what blocked is now among these items, if that is near to where it was.
fn other_now(items: &[Item], hint: &Hint) -> Option<Other> {
    for distance in 0..NEAR {
        let above = moved_by(&hint.obstacle.other, distance, true);
        if is_there(items, hint, &above) {
            return Some(above);
        }
        let below = moved_by(&hint.obstacle.other, distance, false);
        if is_there(items, hint, &below) {
            return Some(below);
        }
    }
    None
}

/// What blocked before, by its places now among these items, if it is known and found.
pub(crate) fn places_by(items: &[Item], hint: Option<Hint>) -> Option<Obstacle> {
    let hint = hint?;
    let other = other_now(items, &hint)?;
    Some(Obstacle {
        moved: hint.obstacle.moved,
        other,
    })
}

//! Finds the priorities of the joins by selectors of a rule and others.
//! It goes along the order keys of the others, on one side of the rule and then on the other one.
//! On both sides it ends once all the rest comes too late.

ghost use Rattle.std.specs.Prelude.{◌≡◌, ℕ, ◌<◌, OnOk, length, true};
ghost use Rattle.std.specs.List.{Contains};
ghost use Rattle.std.specs.List.Sorted.{IsStrictlyIncreasing};
ghost use Rattle.pending_laws.specs.declared.way.Way.TheVariants as ways;
ghost use Rattle.queue_laws.specs.IndexedBarriers.{IsPastBarrier};
ghost use Rattle.step_kinds.specs.declared.kind.Kind.TheVariants as candidate_kinds;
ghost use Rattle.step_laws.specs.declared.step.Step as declared;
ghost use Rattle.step_laws.specs.declared.step.Step.TheVariants as kinds;
ghost use Rattle.next_step.specs.Kinds.{IsSelectorJoin};
ghost use Rattle.next_step.specs.LaterOrderKeys.{AreAllOnOneSide, AreLateFrom};
ghost use Rattle.next_step.specs.Looking.{IsWith};
ghost use Rattle.next_step.specs.Viewed.{ArePartners, CoversIn, Grows, IsFocus, IsView};

use crate::apart::masks::selectors_differ;
use crate::barriers::{Past, is_down_past, is_up_past};
use crate::others::halves::halves;
use crate::others::{other_number, owns_none_below};
use crate::queue::found::Found;
use crate::too_late::by_order_keys::most_beside;
use crate::too_late::by_parts::selector_joins_are_late;
use crate::trying::try_both;
use crate::view::{Attempt, Focus, Partners, View};
use std::alloc::AllocError;
use step_kinds::Kind;
use step_laws::Step;
use step_queue::Heaviest;

/// Whether the joins by selectors of the item with the order key `at` and others are known to come too late.
/// They are those that save at most the weight of the heaviest selectors. The others have this order key or a later one on the same
/// side of `at`.
fn are_late_from(found: &Found, heaviest: Heaviest, at: u64, order_key: u64) -> bool
    ensures { result ≡ true → AreLateFrom found.now.others candidate_kinds.SelJoinUp at order_key heaviest.selectors }
{
    match most_beside(&found.others, Kind::SelJoinUp, at, order_key) {
        Some(most) => heaviest.selectors <= most,
        None => false,
    }
}

/// Puts the priorities of the joins of two rules by their selectors. `past` says which of them are known to go past barriers.
fn try_selector_joins(
    view: &View<'_>,
    partners: &Partners,
    past: Past,
    found: &mut Found,
) -> Result<(), AllocError>
    requires view { IsView view.now }
    requires partners { ArePartners view.now.indexed.now partners.now }
    requires past_up { past.up ≡ true → IsPastBarrier view.now.indexed.now view.now.barriers.now ways.Up partners.now.lower partners.now.upper }
    requires past_down { past.down ≡ true → IsPastBarrier view.now.indexed.now view.now.barriers.now ways.Down partners.now.upper partners.now.lower }
    ensures grows { OnOk result (Grows view.now found.old found.new) }
    ensures up { OnOk result (CoversIn view.now found.new (kinds.JoinSelUp partners.now.upper partners.now.lower)) }
    ensures down { OnOk result (CoversIn view.now found.new (kinds.JoinSelDown partners.now.upper partners.now.lower)) }
{
    let Partners { upper, lower, .. } = *partners;
    if selectors_differ(view.indexed, upper, lower) {
        return Ok(());
    }
    if selector_joins_are_late(view, partners, found) {
        return Ok(());
    }
    let up = Attempt {
        step: Step::JoinSelUp { upper, lower },
        part_once: false,
        apart: false,
        past: past.up,
    };
    let down = Attempt {
        step: Step::JoinSelDown { upper, lower },
        past: past.down,
        ..up
    };
    try_both(view, &up, &down, found)
}

/// Puts the priorities of the joins of two items by their selectors, if not both of them go past barriers.
fn try_pair(view: &View<'_>, upper: u32, lower: u32, found: &mut Found) -> Result<(), AllocError>
    requires view { IsView view.now }
    requires upper { upper < length view.now.indexed.now.items }
    requires lower { lower < length view.now.indexed.now.items }
    ensures grows { OnOk result (Grows view.now found.old found.new) }
    ensures up { OnOk result (CoversIn view.now found.new (kinds.JoinSelUp upper lower)) }
    ensures down { OnOk result (CoversIn view.now found.new (kinds.JoinSelDown upper lower)) }
{
    let up = is_up_past(view.indexed, view.barriers, upper, lower);
    let down = is_down_past(view.indexed, view.barriers, upper, lower);
    if up && down {
        return Ok(());
    }
    let partners = Partners {
        upper,
        lower,
        apart: false,
        lower_once: false,
    };
    try_selector_joins(view, &partners, Past { up, down }, found)
}

/// Puts the priorities of the joins by selectors of the focus and another item with this order key.
/// `last` is the number of the last other item that was found.
fn try_partner(
    view: &View<'_>,
    focus: &Focus<'_>,
    order_key: u64,
    last: &mut u32,
    found: &mut Found,
) -> Result<(), AllocError>
    requires view { IsView view.now }
    requires focus { IsFocus view.now focus.now }
    ensures grows { OnOk result (Grows view.now found.old found.new) }
    ensures covers { OnOk result ((k : declared.Step) → IsWith view.now.indexed.now focus.now.number order_key k → IsSelectorJoin k → CoversIn view.now found.new k) }
{
    let _marks = view.indexed.marks();
    let number = focus.number;
    let Some(other) = other_number(view, focus, order_key, last) else {
        return Ok(());
    };
    if other < number {
        try_pair(view, other, number, found)
    } else {
        try_pair(view, number, other, found)
    }
}

/// Puts the priorities of the joins by selectors of the focus and items on one side of it with these order keys, which ascend.
/// It ends once all the rest comes too late. It looks for the first one from the number `near` on.
fn try_side(
    view: &View<'_>,
    focus: &Focus<'_>,
    near: u32,
    order_keys: &[u64],
    found: &mut Found,
) -> Result<(), AllocError>
    requires view { IsView view.now }
    requires focus { IsFocus view.now focus.now }
    requires ascends { IsStrictlyIncreasing order_keys.now }
    requires side { AreAllOnOneSide focus.now.order_key order_keys.now }
    ensures grows { OnOk result (Grows view.now found.old found.new) }
    ensures covers { OnOk result ((order_key : ℕ) (k : declared.Step) → Contains order_keys.now order_key → IsWith view.now.indexed.now focus.now.number order_key k → IsSelectorJoin k → CoversIn view.now found.new k) }
{
    let _marks = view.indexed.marks();
    let heaviest = view.weights.heaviest();
    let mut last = near;
    let mut rest = order_keys;
    'rest: while let Some((order_key, behind)) = rest.split_first() {
        if are_late_from(found, heaviest, focus.order_key, *order_key) {
            return Ok(());
        }
        try_partner(view, focus, *order_key, &mut last, found)?;
        rest = behind;
    }
    Ok(())
}

/// Puts the priorities of the joins by selectors of the focus and other items with these order keys, which ascend.
/// It takes the items above it first, then those below it. On both sides it ends once all the rest comes too late.
pub(crate) fn try_selector_partners(
    view: &View<'_>,
    focus: &Focus<'_>,
    order_keys: &[u64],
    found: &mut Found,
) -> Result<(), AllocError>
    requires view { IsView view.now }
    requires focus { IsFocus view.now focus.now }
    requires ascends { IsStrictlyIncreasing order_keys.now }
    ensures grows { OnOk result (Grows view.now found.old found.new) }
    ensures covers { OnOk result ((order_key : ℕ) (k : declared.Step) → Contains order_keys.now order_key → IsWith view.now.indexed.now focus.now.number order_key k → IsSelectorJoin k → CoversIn view.now found.new k) }
{
    let _marks = view.indexed.marks();
    let (above, below) = halves(order_keys, focus.order_key);
    try_side(view, focus, 0, above, found)?;
    if owns_none_below(view, focus) {
        return Ok(());
    }
    try_side(view, focus, focus.number, below, found)
}

//! Whether a step reverses a pair with another one or with a kept item.

ghost use Rattle.std.specs.Prelude.{◌≡◌, ◌≤◌, true};
ghost use Rattle.order_index.specs.Afterwards.{after};
ghost use Rattle.order_index.specs.Listed.{IsChange, IsKeptAt, IsListed, IsMoving};
ghost use Rattle.order_laws.specs.Comparing as comparing;
ghost use Rattle.order_laws.specs.Reversed as order;
ghost use Rattle.window_order.specs.Places.{IsKnownPair};

use crate::marked::{Marked, MarkedKept};
use crate::step_window::StepWindow;
use order_laws::{order_is_decided, weighing_is_decided};
use plan_laws::{steps_have_windows, windows_tell_kept, windows_tell_pairs};
use window_order::KnownPair;

/// Whether a step reverses a pair that it moves and another pair of the sheet.
#[tactic(auto, using(crate::proofs::Turned::turned_is, crate::proofs::Turned::not_weighing))]
pub(crate) fn is_turned(change: &StepWindow<'_>, p: &Marked<'_>, q: &Marked<'_>) -> bool
    requires change { IsChange change.now.window change.now.step }
    requires first { IsMoving change.now.window.items.now change.now.step p.now }
    requires second { IsListed change.now.window.items.now q.now }
    ensures { result ≡ order.is_reversed change.now.window.items.now (after change.now.window.items.now change.now.step) p.now.pair q.now.pair }
{
    weighing_is_decided();
    order_is_decided();
    steps_have_windows();
    windows_tell_pairs();
    if !p.weighs(q) {
        return false;
    }
    change.window.is_reversed(&p.parts(), &q.parts())
}

/// Whether a step reverses a pair that it moves and a kept item of the sheet.
#[tactic(auto, using(crate::proofs::TurnedKept::kept_turned_is, crate::proofs::TurnedKept::kept_not_weighing, crate::proofs::TurnedKept::kept_outside))]
pub(crate) fn is_turned_kept(change: &StepWindow<'_>, p: &Marked<'_>, kept: &MarkedKept<'_>) -> bool
    requires change { IsChange change.now.window change.now.step }
    requires first { IsMoving change.now.window.items.now change.now.step p.now }
    requires second { IsKeptAt change.now.window.items.now kept.now }
    ensures { result ≡ order.is_reversed_kept change.now.window.items.now (after change.now.window.items.now change.now.step) p.now.pair kept.now }
{
    weighing_is_decided();
    order_is_decided();
    steps_have_windows();
    windows_tell_kept();
    if kept.number < change.window.start {
        return false;
    }
    if change.window.last < kept.number {
        return false;
    }
    if !p.weighs_with(kept) {
        return false;
    }
    change.window.is_kept_reversed(&p.parts(), kept.number)
}

/// Whether a step reverses a pair that it moves and another pair of the sheet that weighs with it, by what is known of
/// where they are.
#[tactic(auto, using(crate::proofs::Turned::turned_is))]
pub(crate) fn is_known_turned(
    change: &StepWindow<'_>,
    p: &Marked<'_>,
    of_p: &mut KnownPair,
    q: &Marked<'_>,
    of_q: &mut KnownPair,
) -> bool
    requires change { IsChange change.now.window change.now.step }
    requires first { IsMoving change.now.window.items.now change.now.step p.now }
    requires second { IsListed change.now.window.items.now q.now }
    requires weigh { comparing.weigh p.now.pair q.now.pair ≡ true }
    requires of_p { IsKnownPair change.now.window p.now.pair of_p.old }
    requires of_q { IsKnownPair change.now.window q.now.pair of_q.old }
    ensures told { result ≡ order.is_reversed change.now.window.items.now (after change.now.window.items.now change.now.step) p.now.pair q.now.pair }
    ensures of_p { IsKnownPair change.now.window p.now.pair of_p.new }
    ensures of_q { IsKnownPair change.now.window q.now.pair of_q.new }
{
    weighing_is_decided();
    order_is_decided();
    steps_have_windows();
    windows_tell_pairs();
    change
        .window
        .is_known_reversed(&p.parts(), of_p, &q.parts(), of_q)
}

/// Whether a step reverses a pair that it moves and a kept item of its window that weighs with it, by what is known of
/// where the pair is.
#[tactic(auto, using(crate::proofs::TurnedKept::kept_turned_is))]
pub(crate) fn is_known_turned_kept(
    change: &StepWindow<'_>,
    p: &Marked<'_>,
    of_p: &mut KnownPair,
    kept: &MarkedKept<'_>,
) -> bool
    requires change { IsChange change.now.window change.now.step }
    requires first { IsMoving change.now.window.items.now change.now.step p.now }
    requires second { IsKeptAt change.now.window.items.now kept.now }
    requires above { change.now.window.start ≤ kept.now.0 }
    requires below { kept.now.0 ≤ change.now.window.last }
    requires weighs { comparing.weighs_kept p.now.pair kept.now.1 ≡ true }
    requires of_p { IsKnownPair change.now.window p.now.pair of_p.old }
    ensures told { result ≡ order.is_reversed_kept change.now.window.items.now (after change.now.window.items.now change.now.step) p.now.pair kept.now }
    ensures of_p { IsKnownPair change.now.window p.now.pair of_p.new }
{
    weighing_is_decided();
    order_is_decided();
    steps_have_windows();
    windows_tell_kept();
    change
        .window
        .is_known_kept_reversed(&p.parts(), of_p, kept.number)
}

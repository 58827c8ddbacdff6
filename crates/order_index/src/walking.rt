//! What a step reverses, asked for one after the other, up to the first that blocks.

ghost use Rattle.std.specs.Prelude.{◌≡◌, ◌∷◌, [], ◌<◌, ◌≤◌, ◌^◌, List, IfOk, length, true};
ghost use Rattle.std.specs.List.{Contains};
ghost use Rattle.order_index.specs.Listed.{IsChange, IsKeptAt};
ghost use Rattle.order_index.specs.Told.{IsAt, IsOfMoved, IsToldOf, IsWith, moved_by, reversed_by};
ghost use Rattle.order_index.specs.Walked.{IsMovedBy};
ghost use Rattle.order_laws.specs.Comparing as comparing;
ghost use Rattle.order_laws.specs.Places.{last_pairs};
ghost use Rattle.order_laws.specs.Reversed as order;
ghost use Rattle.overlap.specs.PairsParts as remembered;
ghost use Rattle.sheet_order.specs.Allowing as allowing;
ghost use Rattle.sheet_order.specs.Narrow.{CanBePlanned};
ghost use Rattle.window_order.specs.Places.{IsKnownPair};

use crate::marked::{Marked, MarkedKept};
use crate::moving::Moving;
use crate::places::distance;
use crate::step_window::StepWindow;
use crate::turning::{is_known_turned, is_known_turned_kept};
use order_laws::{listed_is_reversed, listed_stands_last, order_is_decided, weighing_is_decided};
use overlap::Pairs;
use print_laws::selectors_are_in_the_profile;
use selector_laws::read_selectors_keep_the_limits;
use sheet_order::{Allowed, BlockCause, Counterpart, Reversal, judged};
use std::alloc::AllocError;
use step_laws::parts_are_few;
use window_order::{KnownPair, unknown_pair};

/// Whether a moved pair may pass another one, by the answer for their selectors. The answer is asked for.
fn ask(pairs: &mut Pairs, p: &Marked<'_>, q: &Marked<'_>) -> Result<Allowed, AllocError>
    requires { allowing.IsAskable (order.with_pair p.now q.now) }
    ensures stays { allowing.Stays pairs.old pairs.new }
    ensures allowed { IfOk result (λ allowed. allowing.IsAllowed pairs.new.answers (order.with_pair p.now q.now ∷ []) allowed) }
{
    let entry = Reversal {
        moved: p.pair.copy(),
        other: Counterpart::Pair(q.pair.copy()),
    };
    judged(pairs, &[entry])
}

/// Whether a moved pair may pass another one that weighs with it. The answer is asked for where the step reverses them.
#[tactic(auto, using(sheet_order::proofs::ForCallers::stays_itself))]
fn of_pair(
    pairs: &mut Pairs,
    change: &StepWindow<'_>,
    p: &Marked<'_>,
    of_p: &mut KnownPair,
    q: &Marked<'_>,
    of_q: &mut KnownPair,
) -> Result<Allowed, AllocError>
    requires change { IsChange change.now.window change.now.step }
    requires planned { CanBePlanned change.now.window.items.now }
    requires moved { Contains (moved_by change.now.window.items.now change.now.step) p.now }
    requires other { Contains (last_pairs change.now.window.items.now) q.now }
    requires weigh { comparing.weigh p.now.pair q.now.pair ≡ true }
    requires of_p { IsKnownPair change.now.window p.now.pair of_p.old }
    requires of_q { IsKnownPair change.now.window q.now.pair of_q.old }
    ensures stays { allowing.Stays pairs.old pairs.new }
    ensures told { IfOk result (λ allowed. IsToldOf pairs.new.answers (reversed_by change.now.window.items.now change.now.step) (λ r. r ≡ order.with_pair p.now q.now) allowed) }
    ensures of_p { IsKnownPair change.now.window p.now.pair of_p.new }
    ensures of_q { IsKnownPair change.now.window q.now.pair of_q.new }
{
    listed_is_reversed();
    listed_stands_last();
    order_is_decided();
    weighing_is_decided();
    read_selectors_keep_the_limits();
    selectors_are_in_the_profile();
    parts_are_few();
    if !is_known_turned(change, p, of_p, q, of_q) {
        return Ok(Allowed::Free);
    }
    ask(pairs, p, q)
}

/// Whether the moved pair of this number may pass another one, if it is so far from it.
#[tactic(auto, using(sheet_order::proofs::ForCallers::stays_itself))]
fn of_number(
    pairs: &mut Pairs,
    change: &StepWindow<'_>,
    moving: &mut Moving<'_>,
    number: usize,
    far: usize,
    q: &Marked<'_>,
    of_q: &mut KnownPair,
) -> Result<Allowed, AllocError>
    requires change { IsChange change.now.window change.now.step }
    requires planned { CanBePlanned change.now.window.items.now }
    requires moved { IsMovedBy change.now.window change.now.step moving.old }
    requires number { number < length moving.old.pairs.items }
    requires other { Contains (last_pairs change.now.window.items.now) q.now }
    requires of_q { IsKnownPair change.now.window q.now.pair of_q.old }
    ensures stays { allowing.Stays pairs.old pairs.new }
    ensures told { IfOk result (λ allowed. IsToldOf pairs.new.answers (reversed_by change.now.window.items.now change.now.step)
        (IsOfMoved (moved_by change.now.window.items.now change.now.step) (order.AnotherPair q.now) far number) allowed) }
    ensures moved { IsMovedBy change.now.window change.now.step moving.new }
    ensures of_q { IsKnownPair change.now.window q.now.pair of_q.new }
{
    listed_is_reversed();
    listed_stands_last();
    order_is_decided();
    weighing_is_decided();
    read_selectors_keep_the_limits();
    let p = &moving.pairs[number];
    let other = q.item_number();
    let own = p.item_number();
    if distance(other, own) != far {
        return Ok(Allowed::Free);
    }
    if !p.weighs(q) {
        return Ok(Allowed::Free);
    }
    let mut of_p = moving.known_of(number);
    let allowed = of_pair(pairs, change, p, &mut of_p, q, of_q)?;
    moving.note(number, of_p);
    Ok(allowed)
}

/// Whether the moved pairs that are so far from another one may pass it.
#[tactic(auto, using(sheet_order::proofs::ForCallers::stays_itself))]
pub(crate) fn with_pair(
    pairs: &mut Pairs,
    change: &StepWindow<'_>,
    moving: &mut Moving<'_>,
    far: usize,
    q: &Marked<'_>,
) -> Result<Allowed, AllocError>
    requires change { IsChange change.now.window change.now.step }
    requires planned { CanBePlanned change.now.window.items.now }
    requires moved { IsMovedBy change.now.window change.now.step moving.old }
    requires other { Contains (last_pairs change.now.window.items.now) q.now }
    ensures stays { allowing.Stays pairs.old pairs.new }
    ensures told { IfOk result (λ allowed. IsToldOf pairs.new.answers (reversed_by change.now.window.items.now change.now.step) (IsWith (order.AnotherPair q.now) far) allowed) }
    ensures moved { IsMovedBy change.now.window change.now.step moving.new }
{
    listed_is_reversed();
    listed_stands_last();
    let mut of_q = unknown_pair();
    let count = moving.pairs.len();
    for number in 0..count {
        let allowed = of_number(pairs, change, moving, number, far, q, &mut of_q)?;
        if let Allowed::Blocked(cause) = allowed {
            return Ok(Allowed::Blocked(cause));
        }
    }
    Ok(Allowed::Free)
}

/// Whether a moved pair may pass a kept item that weighs with it: only where the step does not reverse them.
fn of_kept(
    change: &StepWindow<'_>,
    p: &Marked<'_>,
    of_p: &mut KnownPair,
    kept: &MarkedKept<'_>,
) -> Allowed
    requires change { IsChange change.now.window change.now.step }
    requires planned { CanBePlanned change.now.window.items.now }
    requires moved { Contains (moved_by change.now.window.items.now change.now.step) p.now }
    requires kept { IsKeptAt change.now.window.items.now kept.now }
    requires above { change.now.window.start ≤ kept.now.0 }
    requires below { kept.now.0 ≤ change.now.window.last }
    requires small { kept.now.0 < 2 ^ 32 }
    requires weighs { comparing.weighs_kept p.now.pair kept.now.1 ≡ true }
    requires of_p { IsKnownPair change.now.window p.now.pair of_p.old }
    ensures told { (answers : List remembered.Answered) → IsToldOf answers (reversed_by change.now.window.items.now change.now.step) (λ r. r ≡ order.with_kept p.now kept.now) result }
    ensures of_p { IsKnownPair change.now.window p.now.pair of_p.new }
{
    listed_is_reversed();
    listed_stands_last();
    order_is_decided();
    weighing_is_decided();
    read_selectors_keep_the_limits();
    if is_known_turned_kept(change, p, of_p, kept) {
        Allowed::Blocked(BlockCause::Kept(kept.number as u32))
    } else {
        Allowed::Free
    }
}

/// Whether the moved pair of this number may pass a kept item, if it is so far from it.
fn of_number_kept(
    change: &StepWindow<'_>,
    moving: &mut Moving<'_>,
    number: usize,
    far: usize,
    kept: &MarkedKept<'_>,
) -> Allowed
    requires change { IsChange change.now.window change.now.step }
    requires planned { CanBePlanned change.now.window.items.now }
    requires moved { IsMovedBy change.now.window change.now.step moving.old }
    requires number { number < length moving.old.pairs.items }
    requires kept { IsKeptAt change.now.window.items.now kept.now }
    requires above { change.now.window.start ≤ kept.now.0 }
    requires below { kept.now.0 ≤ change.now.window.last }
    requires small { kept.now.0 < 2 ^ 32 }
    ensures told { (answers : List remembered.Answered) → IsToldOf answers (reversed_by change.now.window.items.now change.now.step)
        (IsOfMoved (moved_by change.now.window.items.now change.now.step) (order.KeptAt kept.now.0) far number) result }
    ensures moved { IsMovedBy change.now.window change.now.step moving.new }
{
    listed_is_reversed();
    listed_stands_last();
    order_is_decided();
    weighing_is_decided();
    let p = &moving.pairs[number];
    let own = p.item_number();
    if distance(kept.number, own) != far {
        return Allowed::Free;
    }
    if !p.weighs_with(kept) {
        return Allowed::Free;
    }
    let mut of_p = moving.known_of(number);
    let allowed = of_kept(change, p, &mut of_p, kept);
    moving.note(number, of_p);
    allowed
}

/// Whether the moved pairs that are so far from a kept item may pass it.
pub(crate) fn with_kept(
    change: &StepWindow<'_>,
    moving: &mut Moving<'_>,
    far: usize,
    kept: &MarkedKept<'_>,
) -> Allowed
    requires change { IsChange change.now.window change.now.step }
    requires planned { CanBePlanned change.now.window.items.now }
    requires moved { IsMovedBy change.now.window change.now.step moving.old }
    requires kept { IsKeptAt change.now.window.items.now kept.now }
    requires above { change.now.window.start ≤ kept.now.0 }
    requires below { kept.now.0 ≤ change.now.window.last }
    requires small { kept.now.0 < 2 ^ 32 }
    ensures told { (answers : List remembered.Answered) → IsToldOf answers (reversed_by change.now.window.items.now change.now.step) (IsAt kept.now.0 far) result }
    ensures moved { IsMovedBy change.now.window change.now.step moving.new }
{
    listed_is_reversed();
    listed_stands_last();
    weighing_is_decided();
    order_is_decided();
    let count = moving.pairs.len();
    for number in 0..count {
        let allowed = of_number_kept(change, moving, number, far, kept);
        if let Allowed::Blocked(cause) = allowed {
            return Allowed::Blocked(cause);
        }
    }
    Allowed::Free
}

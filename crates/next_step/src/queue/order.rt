//! The order of candidates, and the priority of a step by the order keys of its items.

ghost use Rattle.std.specs.Prelude.{◌≡◌, ◌↔◌, ◌∷◌, [], ◌<◌, IsTrue, length, slice_index};
ghost use Rattle.css_model.specs.Cascade.Winner.{exceeds};
ghost use Rattle.pending_laws.specs.Priorities.{named};
ghost use Rattle.step_queue.specs.Told.{candidate_told};
ghost use Rattle.plan_laws.specs.Cover.{IsSooner};
ghost use Rattle.step_laws.specs.Steps.{HasStep};
ghost use Rattle.indexed_sheet.specs.MarkList.{order_keys_of};
ghost use Rattle.next_step.specs.Seconds.{HasItem, second_name};

use crate::view::View;
use indexed_sheet::IndexedSheet;
use std::cmp::Reverse;
use step_kinds::{Kind, kind_number, kind_of};
use step_laws::Step;
use step_queue::Candidate;

/// Whether three numbers come before three others. The first that differs decides.
#[tactic(auto, using(std::proofs::lemmas::Bool::Decides::nat_tests))]
fn come_before(one: (u8, u64, u64), other: (u8, u64, u64)) -> bool
    ensures { result ≡ exceeds (other.0 ∷ other.1 ∷ other.2 ∷ []) (one.0 ∷ one.1 ∷ one.2 ∷ []) }
{
    one.0 < other.0
        || (one.0 == other.0 && (one.1 < other.1 || (one.1 == other.1 && one.2 < other.2)))
}

/// Whether the priority of one candidate comes before that of another one.
pub(crate) fn is_sooner(one: &Candidate, other: &Candidate) -> bool
    ensures { IsTrue result ↔ IsSooner (candidate_told one.now).priority (candidate_told other.now).priority }
{
    if one.saving.0 > other.saving.0 {
        return true;
    }
    if one.saving.0 < other.saving.0 {
        return false;
    }
    come_before(
        (kind_number(one.kind), one.first, one.second),
        (kind_number(other.kind), other.first, other.second),
    )
}

/// The order key of the item of this number.
pub(crate) fn order_key_of(indexed: &IndexedSheet, number: u32) -> u64
    requires { number < length indexed.now.items }
    ensures { result ≡ slice_index (order_keys_of indexed.now.marks) number }
{
    indexed.mark(number).order_key
}

/// The order key of a step's last item. Of a cut it is the number of the part.
fn last_name(indexed: &IndexedSheet, kind: Kind, second: u32) -> u64
    requires { HasItem kind second (length indexed.now.items) }
    ensures { result ≡ second_name kind (order_keys_of indexed.now.marks) second }
{
    match kind {
        Kind::DeclCut | Kind::SelCut => u64::from(second),
        Kind::SelJoinUp
        | Kind::SelJoinDown
        | Kind::DeclJoinUp
        | Kind::DeclJoinDown
        | Kind::Sharing => order_key_of(indexed, second),
    }
}

/// The priority of a step of the sheet that saves this much, with the scope of the view's candidate.
pub(crate) fn candidate_of(view: &View<'_>, step: &Step, saving: u32) -> Candidate
    requires { HasStep view.now.indexed.now.items step.now }
    ensures priority { (candidate_told result).priority ≡ named (order_keys_of view.now.indexed.now.marks) saving step.now }
    ensures saving { result.saving.0 ≡ saving }
    ensures owner { result.owner ≡ view.now.after.now.owner }
    ensures scope { result.scope ≡ view.now.after.now.scope }
{
    let (kind, first, second) = kind_of(step);
    Candidate {
        saving: Reverse(saving),
        kind,
        first: order_key_of(view.indexed, first),
        second: last_name(view.indexed, kind, second),
        owner: view.after.owner,
        scope: view.after.scope,
        room: view.after.next_room(),
    }
}

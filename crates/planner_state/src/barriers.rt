//! Takes down barriers.

ghost use Rattle.std.specs.Prelude.{◌≡◌, ◌<◌, Some, length, slice_get};
ghost use Rattle.pending_laws.specs.declared.way.Way as declared;
ghost use Rattle.pending_laws.specs.declared.way.Way.TheVariants as ways;
ghost use Rattle.step_queue.specs.declared.candidate.Scope.TheVariants as scopes;
ghost use Rattle.step_queue.specs.BarrierParts.{barriers_on};
ghost use Rattle.indexed_sheet.specs.MarkList.{order_keys_of};
ghost use Rattle.planner_state.specs.Barriers.{IsFromOther, IsFromOtherItem, IsOfOther, SomeStay};
ghost use Rattle.step_laws.specs.Steps.{HasStep};

use indexed_sheet::IndexedSheet;
use pending_laws::Way;
use step_laws::Step;
use step_queue::{Barrier, Barriers, Candidate, Scope};
use step_savings::items_of;

/// Takes down the barrier under an item id, if it is at one of these order keys.
fn take_down_if(barriers: &mut Vec<Barrier>, item_id: usize, first: u64, last: u64)
    requires { item_id < length barriers.old.items }
    ensures { SomeStay barriers.old.items barriers.new.items (λ b order_key. item_id ≡ b → IsFromOther first last b order_key) }
{
    let Barrier { order_key, decl } = barriers[item_id];
    if order_key == first || order_key == last {
        barriers[item_id] = Barrier { order_key: 0, decl };
    }
}

/// Takes down the barriers that are at one of these order keys.
fn take_down_from(barriers: &mut Vec<Barrier>, first: u64, last: u64)
    ensures { SomeStay barriers.old.items barriers.new.items (IsFromOther first last) }
{
    for item_id in 0..barriers.len() {
        take_down_if(barriers, item_id, first, last);
    }
}

/// Returns the order key of the item of this number.
fn order_key_of(indexed: &IndexedSheet, number: u32) -> u64
    requires { number < length indexed.now.items }
    ensures { slice_get (order_keys_of indexed.now.marks) number ≡ Some result }
{
    indexed.mark(number).order_key
}

/// Takes down the barriers that are at the first or the last item of a step.
pub(crate) fn take_down_for(barriers: &mut Barriers, indexed: &IndexedSheet, step: &Step)
    requires { HasStep indexed.now.items step.now }
    ensures { (way : declared.Way) → SomeStay (barriers_on way barriers.old) (barriers_on way barriers.new) (IsFromOtherItem indexed.now.marks step.now) }
{
    let (first, last) = items_of(step);
    let first = order_key_of(indexed, first);
    let last = order_key_of(indexed, last);
    take_down_from(&mut barriers.ups, first, last);
    take_down_from(&mut barriers.downs, first, last);
}

/// Takes down the barrier of the item of an item id.
fn take_down(barriers: &mut Vec<Barrier>, item_id: u32)
    ensures { SomeStay barriers.old.items barriers.new.items (λ b order_key. item_id ≡ b → ⊥) }
{
    let item_id = item_id as usize;
    if item_id < barriers.len() {
        let Barrier { decl, .. } = barriers[item_id];
        barriers[item_id] = Barrier { order_key: 0, decl };
    }
}

/// Returns the way of the joins of an item, if a candidate stands for all joins of the item in that way.
fn way_of(candidate: &Candidate) -> Option<Way>
    ensures ups { candidate.now.scope ≡ scopes.Ups → result ≡ Some ways.Up }
    ensures downs { candidate.now.scope ≡ scopes.Downs → result ≡ Some ways.Down }
{
    match candidate.scope {
        Scope::Ups => Some(Way::Up),
        Scope::Downs => Some(Way::Down),
        Scope::Alone | Scope::Owned => None,
    }
}

/// Takes down the barrier of an item in a way, if the candidate stands for all joins of the item in that way.
pub(crate) fn take_down_of(barriers: &mut Barriers, candidate: &Candidate)
    ensures { (way : declared.Way) → SomeStay (barriers_on way barriers.old) (barriers_on way barriers.new) (IsOfOther way candidate.now) }
{
    match way_of(candidate) {
        Some(Way::Up) => take_down(&mut barriers.ups, candidate.owner),
        Some(Way::Down) => take_down(&mut barriers.downs, candidate.owner),
        None => {}
    }
}

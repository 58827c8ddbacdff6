//! Whether a step is in the scope of a candidate.

ghost use Rattle.std.specs.Prelude.{◌≡◌, ◌↔◌, ◌<◌, IsTrue, length, slice_index};
ghost use Rattle.pending_laws.specs.ItemIds.{owner};
ghost use Rattle.pending_laws.specs.Scopes.{IsDownward, IsUp};
ghost use Rattle.indexed_sheet.specs.MarkList.{item_ids_of};
ghost use Rattle.step_laws.specs.Steps.{HasStep, first_item, last_item};
ghost use Rattle.next_step.specs.Named.{IsQueuedBeside};

use crate::view::View;
use indexed_sheet::IndexedSheet;
use step_laws::Step;
use step_queue::Scope;
use step_savings::items_of;

/// Whether a step is a join in which the lower item moves up.
fn is_up(step: &Step) -> bool
    ensures { IsTrue result ↔ IsUp step.now }
{
    match step {
        Step::JoinSelUp { .. } | Step::JoinDeclUp { .. } => true,
        Step::CutDecl { .. }
        | Step::CutSel { .. }
        | Step::JoinSelDown { .. }
        | Step::JoinDeclDown { .. }
        | Step::Share { .. } => false,
    }
}

/// Whether a step moves pairs of the upper item down: in a join down, or in a share.
fn is_downward(step: &Step) -> bool
    ensures { IsTrue result ↔ IsDownward step.now }
{
    match step {
        Step::JoinSelDown { .. } | Step::JoinDeclDown { .. } | Step::Share { .. } => true,
        Step::CutDecl { .. }
        | Step::CutSel { .. }
        | Step::JoinSelUp { .. }
        | Step::JoinDeclUp { .. } => false,
    }
}

/// The item id of the item of this number.
pub(crate) fn item_id_of(indexed: &IndexedSheet, number: u32) -> u32
    requires { number < length indexed.now.items }
    ensures { result ≡ slice_index (item_ids_of indexed.now.marks) number }
{
    indexed.mark(number).item_id
}

/// The item ids of the first and of the last item of a step.
fn item_ids_of_step(indexed: &IndexedSheet, step: &Step) -> (u32, u32)
    requires { HasStep indexed.now.items step.now }
    ensures first { result.0 ≡ slice_index (item_ids_of indexed.now.marks) (first_item step.now) }
    ensures last { result.1 ≡ slice_index (item_ids_of indexed.now.marks) (last_item step.now) }
{
    let (first, last) = items_of(step);
    (item_id_of(indexed, first), item_id_of(indexed, last))
}

/// The item id of the item that owns a step: the later one of its two.
fn owner_of(indexed: &IndexedSheet, step: &Step) -> u32
    requires { HasStep indexed.now.items step.now }
    ensures { result ≡ slice_index (item_ids_of indexed.now.marks) (owner (item_ids_of indexed.now.marks) step.now) }
{
    let (first, last) = item_ids_of_step(indexed, step);
    if first < last { last } else { first }
}

/// Whether a step of the sheet is in the scope of the view's candidate.
pub(crate) fn is_beside(view: &View<'_>, step: &Step) -> bool
    requires { HasStep view.now.indexed.now.items step.now }
    ensures { IsTrue result ↔ IsQueuedBeside view.now.indexed.now view.now.after.now step.now }
{
    let owner = view.after.owner;
    match view.after.scope {
        Scope::Alone => false,
        Scope::Owned => owner_of(view.indexed, step) == owner,
        Scope::Ups => is_up(step) && item_ids_of_step(view.indexed, step).1 == owner,
        Scope::Downs => is_downward(step) && item_ids_of_step(view.indexed, step).0 == owner,
    }
}

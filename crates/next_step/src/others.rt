//! The other item of the steps of an item, by its order key, if they may have steps in the scope of the candidate.
//! `near` looks for it at the likely places first.
//! `halves` parts order keys into those above an item and those below it.

ghost use Rattle.std.specs.Prelude.{◌≡◌, ◌≤◌, IfNone, IfSome, true};
ghost use Rattle.step_queue.specs.declared.candidate.Scope.TheVariants as scopes;
ghost use Rattle.indexed_sheet.specs.MarkList.{IsOrderKeyAt, IsOldestBelow};
ghost use Rattle.step_laws.specs.declared.step.Step as declared;
ghost use Rattle.next_step.specs.Looking.{FoundParts, IsWith};
ghost use Rattle.next_step.specs.Viewed.{CoversIn, IsFocus, IsView};

pub(crate) mod halves;
pub(crate) mod near;

use crate::others::near::number_behind;
use crate::view::{Focus, View};
use indexed_sheet::Mark;
use step_queue::{Candidate, Scope};

/// Whether a candidate is known to stand for the steps that an item owns, and the item is no younger than another one.
/// An item owns no step with a younger one.
pub(crate) fn owns_none(after: &Candidate, theirs: &Mark, ours: &Mark) -> bool
    ensures { result ≡ true → (after.now.scope ≡ scopes.Owned) × (ours.now.item_id ≤ theirs.now.item_id) }
{
    match after.scope {
        Scope::Owned => theirs.item_id >= ours.item_id,
        Scope::Alone | Scope::Ups | Scope::Downs => false,
    }
}

/// Whether the view's candidate is known to stand for the steps that an item owns, and the item is older than each one below it.
/// Then it owns no step with one of them.
pub(crate) fn owns_none_below(view: &View<'_>, focus: &Focus<'_>) -> bool
    requires { IsFocus view.now focus.now }
    ensures { result ≡ true → (view.now.after.now.scope ≡ scopes.Owned) × IsOldestBelow view.now.indexed.now.marks focus.now.number }
{
    match view.after.scope {
        Scope::Owned => view.indexed.is_oldest_below(focus.number),
        Scope::Alone | Scope::Ups | Scope::Downs => false,
    }
}

/// The number of the item with an order key, if it may have steps with the focus in the scope of the view's candidate.
/// `None` if there is no such item, or no step of the two has to be put. `last` is the number of the last one that was found.
pub(crate) fn other_number(
    view: &View<'_>,
    focus: &Focus<'_>,
    order_key: u64,
    last: &mut u32,
) -> Option<u32>
    requires view { IsView view.now }
    requires focus { IsFocus view.now focus.now }
    ensures some { IfSome result (IsOrderKeyAt view.now.indexed.now.marks order_key) }
    ensures none { IfNone result ((found : FoundParts) (k : declared.Step) → IsWith view.now.indexed.now focus.now.number order_key k → CoversIn view.now found k) }
{
    let _marks = view.indexed.marks();
    let other = number_behind(view.indexed, last, order_key)?;
    let theirs = view.indexed.mark(other);
    let ours = view.indexed.mark(focus.number);
    if owns_none(view.after, &theirs, &ours) {
        return None;
    }
    Some(other)
}

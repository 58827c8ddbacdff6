//! The next priorities in the scope of a candidate, and what is seen of the item whose steps they are.
//! The cuts of the item come first, then its steps by declarations, and then its joins by selectors.
//! `passes` finds the partners of the item by the tables.

ghost use Rattle.std.specs.Prelude.{◌≡◌, ◌⊎◌, ℕ, ◌≤◌, Some, true, IfOk, IfSome, OnOk, length, slice_get};
ghost use Rattle.step_queue.specs.Weights.{room};
ghost use Rattle.indexed_sheet.specs.Facts.{AreTrueOf};
ghost use Rattle.indexed_sheet.specs.MarkList.{item_ids_of, order_keys_of};
ghost use Rattle.step_laws.specs.declared.step.Step as declared;
ghost use Rattle.next_step.specs.Viewed.{AreLaterIn, CoversIn, Grows, IsFocus, IsView};

pub(crate) mod passes;

use crate::cuts::{Parts, look_at_cuts};
use crate::next::passes::{has_own_selectors, look_at_decls, look_at_selectors};
use crate::queue::found::Found;
use crate::view::{Focus, View};
use indexed_sheet::Facts;
use rule_parts::find_rule;
use std::alloc::{AllocError, Global};

/// What was seen of the item of this number.
#[derive(Clone, Copy, Debug)]
pub struct Seen {
    /// The number.
    pub number: u32,
    /// What is known of it.
    pub facts: Facts,
}

/// The priorities that were found, and what was seen of the item besides.
#[derive(Drop)]
pub struct Looked {
    /// The priorities.
    pub found: Found,
    /// What was seen of the item that has the steps, if it is there.
    pub seen: Option<Seen>,
}

/// Whether no other rule has one of the selectors of a rule, or none has one of its declarations.
fn has_own_parts(own_selectors: bool, own_decls: bool) -> bool
    ensures { result ≡ true → (own_selectors ≡ true) ⊎ (own_decls ≡ true) }
{
    if own_selectors {
        return true;
    }
    own_decls
}

/// Whether it is known that a rule has pairs of its own: each of its parts is in it once, and `own` holds.
/// `own` says that no other rule has one of its selectors, or none has one of its declarations.
fn has_own_pairs(parts: Parts, own: bool) -> bool
    ensures once { result ≡ true → parts.once ≡ true }
    ensures selectors_once { result ≡ true → parts.selectors_once ≡ true }
    ensures own { result ≡ true → own ≡ true }
{
    parts.once && parts.selectors_once && own
}

/// Puts the priorities of all steps of the focus, and returns what was seen of it.
/// `Err(AllocError)` if memory is short.
fn look_at(
    alloc: Global,
    view: &View<'_>,
    focus: &Focus<'_>,
    found: &mut Found,
) -> Result<Facts, AllocError>
    requires view { IsView view.now }
    requires focus { IsFocus view.now focus.now }
    ensures grows { OnOk result (Grows view.now found.old found.new) }
    ensures covers { OnOk result ((k : declared.Step) → CoversIn view.now found.new k) }
    ensures facts { IfOk result (AreTrueOf view.now.indexed.now.items focus.now.number) }
{
    let _marks = view.indexed.marks();
    let parts = look_at_cuts(alloc, view, focus, found)?;
    let own_selectors = has_own_selectors(view, focus);
    let known = Focus {
        own_selectors,
        once: parts.once,
        ..*focus
    };
    let own_decls = look_at_decls(alloc, view, &known, found)?;
    look_at_selectors(alloc, view, &known, found)?;
    Ok(Facts {
        no_cut: parts.no_cut,
        own_selectors,
        own_decls,
        own_pairs: has_own_pairs(parts, has_own_parts(own_selectors, own_decls)),
    })
}

/// The next priorities in the scope of the view's candidate, and what was seen of the item whose steps they are.
///
/// Each priority comes later than that of the candidate, and is that of a step in its scope that saves something. The list has at most
/// as many as `after` has room for, and never more than `room`. `others` may have one more. Take a step in the scope that saves
/// something, goes past no barrier and has a later priority. Its priority is in the list, or does not come before that of `others`.
///
/// `at` is the order key of the item with the item id `after.owner`. If no item has that item id, there is no priority. For each way,
/// `barriers` has an item's barrier under the item's item id. Joins of the item up into items above the item of the barrier, and down
/// into items below it, are past it. So are shares with items below it that move the declaration of the barrier. The tables cover the
/// rules of the sheet, with the order keys of their items. No rule weighs more than `weights` say. `Err(AllocError)` if memory is
/// short. The time is that of the item's parts and of the rules with one of its declarations or with all of its selectors, as far as
/// their steps may come soon enough.
pub fn next_candidates(alloc: Global, view: &View<'_>, at: u64) -> Result<Looked, AllocError>
    requires view { IsView view.now }
    requires at { (n : ℕ) → slice_get (item_ids_of view.now.indexed.now.marks) n ≡ Some view.now.after.now.owner → slice_get (order_keys_of view.now.indexed.now.marks) n ≡ Some at }
    ensures later { IfOk result (λ l. AreLaterIn view.now l.found) }
    ensures covers { IfOk result (λ l. (k : declared.Step) → CoversIn view.now l.found k) }
    ensures few { IfOk result (λ l. length l.found.candidates ≤ room) }
    ensures seen { IfOk result (λ l. IfSome l.seen (λ s. AreTrueOf view.now.indexed.now.items s.number s.facts)) }
{
    let mut found = Found::new(alloc, view.after.room);
    let _marks = view.indexed.marks();
    let Some(number) = view.indexed.number_of(at) else {
        return Ok(Looked { found, seen: None });
    };
    let mark = view.indexed.mark(number);
    if mark.item_id != view.after.owner {
        return Ok(Looked { found, seen: None });
    }
    let Some(rule) = find_rule(view.indexed.items(), number) else {
        return Ok(Looked { found, seen: None });
    };
    let focus = Focus {
        number,
        rule,
        order_key: at,
        own_selectors: false,
        once: false,
    };
    let facts = look_at(alloc, view, &focus, &mut found)?;
    Ok(Looked {
        found,
        seen: Some(Seen { number, facts }),
    })
}

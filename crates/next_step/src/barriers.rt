//! Barriers, past which an item is joined into no other, and a declaration of it shared with no other.
//! A barrier is the order key of an item, under the item id of the one that does not move past it, up or down.
//! `standing` says whether a pair is in a rule from an order key on, which is asked before a barrier is set.

ghost use Rattle.std.specs.Prelude.{◌≡◌, ◌↔◌, ◌<◌, IsTrue, Some, length, slice_get};
ghost use Rattle.css_model.specs.declared.sheet.Item.TheVariants as item;
ghost use Rattle.pending_laws.specs.declared.way.Way.TheVariants as ways;
ghost use Rattle.queue_laws.specs.IndexedBarriers.{decl_of_number, is_with, IsPastBarrier, IsBarred, IsBarredOn};
ghost use Rattle.step_laws.specs.declared.step.Step.TheVariants as kinds;
ghost use Rattle.step_queue.specs.BarrierParts.{barriers_on};
ghost use Rattle.step_laws.specs.Steps.{HasStep, decls_of};

pub(crate) mod standing;

use crate::queue::order::order_key_of;
use crate::trying::scopes::item_id_of;
use css_model::{Item, Rule};
use indexed_sheet::IndexedSheet;
use rule_parts::{find_rule, has_decl};
pub use standing::stands_from;
use step_laws::Step;
use step_queue::{Barrier, Barriers};

/// Which of the joins of two items, up and down, are known to go past barriers.
#[derive(Clone, Copy, Debug)]
pub(crate) struct Past {
    pub(crate) up: bool,
    pub(crate) down: bool,
}

/// Whether a join of an item up into another one goes past a barrier.
pub(crate) fn is_up_past(
    indexed: &IndexedSheet,
    barriers: &Barriers,
    upper: u32,
    lower: u32,
) -> bool
    requires upper_there { upper < length indexed.now.items }
    requires lower_there { lower < length indexed.now.items }
    ensures { IsTrue result ↔ IsPastBarrier indexed.now barriers.now ways.Up lower upper }
{
    let mark = indexed.mark(lower);
    match barriers.ups.get(mark.item_id as usize) {
        Some(barrier) => indexed.mark(upper).order_key < barrier.order_key,
        None => false,
    }
}

/// Whether a join of an item down into another one goes past a barrier.
pub(crate) fn is_down_past(
    indexed: &IndexedSheet,
    barriers: &Barriers,
    upper: u32,
    lower: u32,
) -> bool
    requires upper_there { upper < length indexed.now.items }
    requires lower_there { lower < length indexed.now.items }
    ensures { IsTrue result ↔ IsPastBarrier indexed.now barriers.now ways.Down upper lower }
{
    let mark = indexed.mark(upper);
    match barriers.downs.get(mark.item_id as usize) {
        Some(barrier) => is_below(*barrier, indexed.mark(lower).order_key),
        None => false,
    }
}

/// Whether an item with this order key is below a barrier, if there is one.
fn is_below(barrier: Barrier, order_key: u64) -> bool
    ensures { IsTrue result ↔ ((0 < barrier.order_key) × (barrier.order_key < order_key)) }
{
    0 < barrier.order_key && barrier.order_key < order_key
}

/// Whether a rule has the declaration of this number, from 0, of another rule.
fn has_decl_of(rule: &Rule, from: &Rule, number: u32) -> bool
    ensures { result ≡ is_with (Some (item.Rule rule.now)) (slice_get (decls_of from.now) number) }
{
    match from.decls.get(number as usize) {
        Some(declaration) => has_decl(&rule.decls, &declaration.decl),
        None => false,
    }
}

/// Whether the share of two items moves the declaration of this number, from 0, of the upper one.
fn shares_number(items: &[Item], upper: u32, lower: u32, number: u32) -> bool
    ensures { result ≡ is_with (slice_get items.now lower) (decl_of_number (slice_get items.now upper) number) }
{
    let Some(from) = find_rule(items, upper) else {
        return false;
    };
    let Some(rule) = find_rule(items, lower) else {
        return false;
    };
    has_decl_of(rule, from, number)
}

/// Returns the barrier down under an item id, or `None` if there is none.
fn barrier_down(barriers: &Barriers, item_id: u32) -> Option<Barrier>
    ensures { result ≡ slice_get (barriers_on ways.Down barriers.now) item_id }
{
    match barriers.downs.get(item_id as usize) {
        Some(barrier) => Some(*barrier),
        None => None,
    }
}

/// Whether a share of two items moves the declaration that the barrier of the upper one tells past this barrier.
pub(crate) fn is_share_past(
    indexed: &IndexedSheet,
    barriers: &Barriers,
    upper: u32,
    lower: u32,
) -> bool
    requires upper_there { upper < length indexed.now.items }
    requires lower_there { lower < length indexed.now.items }
    ensures { IsTrue result ↔ IsBarredOn indexed.now barriers.now ways.Down (kinds.Share upper lower) }
{
    let Some(barrier) = barrier_down(barriers, item_id_of(indexed, upper)) else {
        return false;
    };
    if !is_below(barrier, order_key_of(indexed, lower)) {
        return false;
    }
    shares_number(indexed.items(), upper, lower, barrier.decl)
}

/// Whether a step of an indexed sheet goes past a barrier: a join of an item past its barrier, or a share that moves the declaration
/// past it. Takes no memory. `barriers` has the barrier under the item's item id.
pub fn is_barred(indexed: &IndexedSheet, barriers: &Barriers, step: &Step) -> bool
    requires { HasStep indexed.now.items step.now }
    ensures { IsTrue result ↔ IsBarred indexed.now barriers.now step.now }
{
    match *step {
        Step::JoinSelUp { upper, lower } | Step::JoinDeclUp { upper, lower } => {
            is_up_past(indexed, barriers, upper, lower)
        }
        Step::JoinSelDown { upper, lower } | Step::JoinDeclDown { upper, lower } => {
            is_down_past(indexed, barriers, upper, lower)
        }
        Step::Share { upper, lower } => is_share_past(indexed, barriers, upper, lower),
        Step::CutDecl { .. } | Step::CutSel { .. } => false,
    }
}

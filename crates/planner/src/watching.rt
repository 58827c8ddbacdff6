//! Candidates that are on the watch list, under the pairs that block their steps.

ghost use Rattle.std.specs.Prelude.{◌≡◌, ◌+◌, OnOk, Some, slice_get};
ghost use Rattle.std.specs.List.{Contains};
ghost use Rattle.css_model.specs.Cascade.Order.{Pair};
ghost use Rattle.css_model.specs.declared.sheet.DeclItem as declared_item;
ghost use Rattle.css_model.specs.declared.sheet.SelItem as declared;
ghost use Rattle.css_model.specs.Sheets.Limits.{max_bytes};
ghost use Rattle.pending_laws.specs.Ways as ways;
ghost use Rattle.queue_laws.specs.IndexedBarriers.{moves_candidate};
ghost use Rattle.queue_laws.specs.Remembering.{entry_of, pairs_of, HasEntryOf};
ghost use Rattle.planner.specs.Barring.{HasMovesEntries};
ghost use Rattle.step_queue.specs.declared.watch_list.Entry.{Entry};
ghost use Rattle.step_queue.specs.Told.{candidate_told, scope_told};
ghost use Rattle.obstacles.specs.Blocking.{IsAt, IsOther, Names};
ghost use Rattle.obstacles.specs.declared.obstacle.Other.TheVariants as others;
ghost use Rattle.obstacles.specs.declared.obstacle.PairPlace as declared_place;
ghost use Rattle.plan_laws.specs.Barrier.Hindering.{Hindrance};

use css_model::{Decl, Item, MAX_BYTES, Rule, Selector};
use obstacles::{Obstacle, Other, PairPlace};
use pending_laws::Way;
use planner_state::Plan;
use rule_tables::{decl_digest, selector_digest};
use std::alloc::AllocError;
use std::cmp::Reverse;
use step_queue::{Candidate, FIRST_ROOM, Kind, Scope, WatchList};
use step_savings::rule_at;

/// Returns the selector of this number in a rule, from 0.
pub(crate) fn selector_of(rule: &Rule, number: u32) -> &Selector
    requires { (s : declared.SelItem) × (slice_get rule.now.selectors number ≡ Some s) }
    ensures { (s : declared.SelItem) → slice_get rule.now.selectors number ≡ Some s → result.now ≡ s.selector }
{
    match rule.selectors.get(number as usize) {
        Some(item) => &item.selector,
        None => unreachable!(),
    }
}

/// Returns the declaration of this number in a rule, from 0.
pub(crate) fn decl_of(rule: &Rule, number: u32) -> &Decl
    requires { (d : declared_item.DeclItem) × (slice_get rule.now.decls number ≡ Some d) }
    ensures { (d : declared_item.DeclItem) → slice_get rule.now.decls number ≡ Some d → result.now ≡ d.decl }
{
    match rule.decls.get(number as usize) {
        Some(item) => &item.decl,
        None => unreachable!(),
    }
}

/// Puts a candidate on the watch list under a pair. All entries stay.
fn put_under(
    watched: &mut WatchList,
    selector: &Selector,
    decl: &Decl,
    candidate: &Candidate,
) -> Result<(), AllocError>
    ensures more { (x : Entry) → Contains watched.old x → Contains watched.new x }
    ensures put { OnOk result (Contains watched.new (entry_of (record { selector = selector.now; decl = decl.now }) candidate.now)) }
{
    watched.put(selector_digest(selector), decl_digest(decl), *candidate)
}

/// Puts a candidate on the watch list under the pair at a place of a sheet. All entries stay.
fn put_pair(
    watched: &mut WatchList,
    items: &[Item],
    place: &PairPlace,
    candidate: &Candidate,
) -> Result<(), AllocError>
    requires { (p : Pair) × IsAt items.now place.now p }
    ensures more { (x : Entry) → Contains watched.old x → Contains watched.new x }
    ensures put { OnOk result ((p : Pair) → IsAt items.now place.now p → Contains watched.new (entry_of p candidate.now)) }
{
    let rule = rule_at(items, place.item);
    let selector = selector_of(rule, place.sel);
    let decl = decl_of(rule, place.decl);
    put_under(watched, selector, decl, candidate)
}

/// Puts a candidate on the watch list under the other thing of an obstacle, if that is a pair. All entries stay.
fn put_other(
    watched: &mut WatchList,
    items: &[Item],
    other: &Other,
    candidate: &Candidate,
) -> Result<(), AllocError>
    requires { (by : Hindrance) × IsOther items.now other.now by }
    ensures more { (x : Entry) → Contains watched.old x → Contains watched.new x }
    ensures put { OnOk result ((place : declared_place.PairPlace) (p : Pair) → other.now ≡ others.Pair place → IsAt items.now place p
        → Contains watched.new (entry_of p candidate.now)) }
{
    match other {
        Other::Pair(place) => put_pair(watched, items, place, candidate),
        Other::Kept(_) => Ok(()),
    }
}

/// Puts a candidate on the watch list under each pair of what an obstacle of a sheet names. All entries stay.
fn put_named(
    watched: &mut WatchList,
    items: &[Item],
    obstacle: &Obstacle,
    candidate: &Candidate,
) -> Result<(), AllocError>
    requires { (by : Hindrance) × Names items.now obstacle.now by }
    ensures more { (x : Entry) → Contains watched.old x → Contains watched.new x }
    ensures put { OnOk result ((by : Hindrance) → Names items.now obstacle.now by → (p : Pair) → Contains (pairs_of by) p
        → Contains watched.new (entry_of p candidate.now)) }
{
    put_pair(watched, items, &obstacle.moved, candidate)?;
    put_other(watched, items, &obstacle.other, candidate)
}

/// Returns a candidate of the same priority, with the scope `Alone`.
fn alone(candidate: &Candidate) -> Candidate
    ensures { (candidate_told result).priority ≡ (candidate_told candidate.now).priority }
{
    Candidate {
        scope: Scope::Alone,
        room: 0,
        ..*candidate
    }
}

/// Puts the priority of a candidate on the watch list under each pair of what an obstacle names. All else of the plan stays.
pub(crate) fn put_watched(
    plan: &mut Plan,
    candidate: &Candidate,
    obstacle: &Obstacle,
) -> Result<(), AllocError>
    requires { (by : Hindrance) × Names plan.old.indexed.items obstacle.now by }
    ensures same { OnOk result (plan.new ≡ record plan.old { entries = plan.new.entries }) }
    ensures more { OnOk result ((x : Entry) → Contains plan.old.entries x → Contains plan.new.entries x) }
    ensures put { OnOk result ((by : Hindrance) → Names plan.old.indexed.items obstacle.now by → (p : Pair) → Contains (pairs_of by) p
        → HasEntryOf plan.new.entries p (candidate_told candidate.now).priority) }
{
    put_named(
        &mut plan.watched,
        plan.indexed.items(),
        obstacle,
        &alone(candidate),
    )
}

/// Returns the scope of all steps in which pairs of an item move in a way.
fn scope_of(way: Way) -> Scope
    ensures { scope_told result ≡ ways.scope_of way }
{
    match way {
        Way::Up => Scope::Ups,
        Way::Down => Scope::Downs,
    }
}

/// Returns the candidate, with a priority before all steps, of all steps in which pairs of the item of an item id move in a way.
fn candidate_of_moves(way: Way, owner: u32) -> Candidate
    ensures { candidate_told result ≡ moves_candidate way (max_bytes + 1) owner }
{
    Candidate {
        saving: Reverse(MAX_BYTES + 1),
        kind: Kind::DeclCut,
        first: 0,
        second: 0,
        owner,
        scope: scope_of(way),
        room: FIRST_ROOM,
    }
}

/// Puts the candidate of all steps of an item in a way on the watch list, under each pair of what an obstacle names.
/// An item id names the item. All else of the plan stays.
pub(crate) fn put_all(
    plan: &mut Plan,
    way: Way,
    item_id: u32,
    obstacle: &Obstacle,
) -> Result<(), AllocError>
    requires { (by : Hindrance) × Names plan.old.indexed.items obstacle.now by }
    ensures same { OnOk result (plan.new ≡ record plan.old { entries = plan.new.entries }) }
    ensures more { OnOk result ((x : Entry) → Contains plan.old.entries x → Contains plan.new.entries x) }
    ensures put { OnOk result (HasMovesEntries plan.old.indexed.items plan.new.entries obstacle.now way item_id) }
{
    put_named(
        &mut plan.watched,
        plan.indexed.items(),
        obstacle,
        &candidate_of_moves(way, item_id),
    )
}

//! Barriers. One is set if an obstacle of a step hinders all joins of an item past a place, up or down, and all shares of a declaration.

ghost use Rattle.std.specs.Prelude.{◌≡◌, ◌≢◌, ◌⊎◌, ◌∷◌, ◌<◌, ◌≤◌, ℕ, IfSome, List, OnOk, Some, false, true, length, slice_get};
ghost use Rattle.std.specs.List.{Contains};
ghost use Rattle.css_model.specs.Cascade.Order.{Pair};
ghost use Rattle.css_model.specs.declared.sheet.Item.TheVariants as item;
ghost use Rattle.css_model.specs.Sheets.Limits.{max_items};
ghost use Rattle.css_model.specs.Sheets.RuleParts.{RuleParts};
ghost use Rattle.pending_laws.specs.Candidates as pending;
ghost use Rattle.queue_laws.specs.MarkNames.{IsMarked};
ghost use Rattle.planner.specs.Barring as spec;
ghost use Rattle.step_queue.specs.declared.barriers.Barrier as declared;
ghost use Rattle.step_queue.specs.declared.watch_list.Entry.{Entry};
ghost use Rattle.obstacles.specs.Blocking.{IsAt, IsBlockedBy, Names};
ghost use Rattle.obstacles.specs.declared.obstacle.Other.TheVariants as others;
ghost use Rattle.indexed_sheet.specs.MarkList.{order_keys_of};
ghost use Rattle.planner_state.specs.State.{IsIndexed, IsQueuedBy};
ghost use Rattle.rule_tables.specs.Pairs.{HasBoth};
ghost use Rattle.rule_tables.specs.Tables.{Cover};
ghost use Rattle.step_laws.specs.Free.{Answered};
ghost use Rattle.step_laws.specs.Steps.{HasStep};
ghost use Rattle.next_step.specs.Marked.{rules_of};
ghost use Rattle.plan_laws.specs.Barrier.Hindering.{Hindrance};

use crate::watching::{decl_of, put_all, selector_of};
use indexed_sheet::{IndexedSheet, way_of_join};
use next_step::stands_from;
use obstacles::{Obstacle, Other, PairPlace};
use pending_laws::Way;
use planner_state::Plan;
use queue_laws::barriers_stay;
use rule_parts::find_rule;
use rule_tables::Tables;
use std::alloc::AllocError;
use step_laws::Step;
use step_queue::{Barrier, Barriers};
use step_savings::{items_of, rule_at};

/// Returns `false` only if no rule has the pair at a place whose order key is at least `from` and is not `own`.
fn pair_stands_from(
    indexed: &IndexedSheet,
    tables: &Tables,
    place: &PairPlace,
    from: u64,
    own: u64,
) -> bool
    requires few { length indexed.now.items ≤ max_items }
    requires cover { Cover tables.now (rules_of indexed.now) }
    requires there { (p : Pair) × IsAt indexed.now.items place.now p }
    ensures { result ≡ false → (p : Pair) → IsAt indexed.now.items place.now p → (n : ℕ) (r : RuleParts) (order_key : ℕ) → slice_get indexed.now.items n ≡ Some (item.Rule r)
        → slice_get (order_keys_of indexed.now.marks) n ≡ Some order_key → from ≤ order_key → order_key ≢ own → HasBoth r p.selector p.decl → ⊥ }
{
    let rule = rule_at(indexed.items(), place.item);
    let selector = selector_of(rule, place.sel);
    let decl = decl_of(rule, place.decl);
    stands_from(indexed, tables, from, own, selector, decl)
}

/// Returns `true` only if, from the item of `other` on, the item of `moved` alone has the moved pair.
/// From the item of `moved` on, no item has the other pair. The item of `other` comes before that of `moved`.
fn stands_alone(
    indexed: &IndexedSheet,
    tables: &Tables,
    moved: &PairPlace,
    other: &PairPlace,
) -> bool
    requires few { length indexed.now.items ≤ max_items }
    requires cover { Cover tables.now (rules_of indexed.now) }
    requires marked { IsMarked indexed.now }
    requires moved_there { (p : Pair) × IsAt indexed.now.items moved.now p }
    requires other_there { (q : Pair) × IsAt indexed.now.items other.now q }
    ensures { result ≡ true → (p q : Pair) → IsAt indexed.now.items moved.now p → IsAt indexed.now.items other.now q
        → spec.StandsAlone indexed.now.items other.now.item moved.now.item p q }
{
    if moved.item <= other.item {
        return false;
    }
    let from = indexed.mark(other.item).order_key;
    let own = indexed.mark(moved.item).order_key;
    if pair_stands_from(indexed, tables, moved, from, own) {
        return false;
    }
    !pair_stands_from(indexed, tables, other, own, from)
}

/// A barrier that is set: in which way, and under which item id.
#[derive(Clone, Copy, Debug)]
struct NewBarrier {
    way: Way,
    item_id: u32,
    barrier: Barrier,
}

/// Only a rule with so many declarations, at most, gets a barrier by a share. If a rule has more, its shares move now this one, now
/// that one, and one barrier hinders few of them.
const MOST_DECLS: usize = 4;

/// Whether the item of this number is a rule that gets barriers by its shares.
fn is_short(indexed: &IndexedSheet, number: u32) -> bool {
    match find_rule(indexed.items(), number) {
        Some(rule) => rule.decls.len() <= MOST_DECLS,
        None => false,
    }
}

/// Returns the way in which pairs move past others in a step.
/// It returns `None` of a cut, and of a share of an upper rule with many declarations.
fn way_of(indexed: &IndexedSheet, step: &Step) -> Option<Way> {
    let Step::Share { upper, .. } = *step else {
        return way_of_join(step);
    };
    if is_short(indexed, upper) {
        Some(Way::Down)
    } else {
        None
    }
}

/// Returns the number of the item whose pairs move past others in a step, and the way, or `None` as `way_of` does.
fn mover_of(indexed: &IndexedSheet, step: &Step) -> Option<(u32, Way)> {
    let way = way_of(indexed, step)?;
    let (first, last) = items_of(step);
    match way {
        Way::Up => Some((last, way)),
        Way::Down => Some((first, way)),
    }
}

/// Returns `true` only if two pairs make a barrier in a way.
fn is_barrier(
    indexed: &IndexedSheet,
    tables: &Tables,
    way: Way,
    moved: &PairPlace,
    other: &PairPlace,
) -> bool
    requires few { length indexed.now.items ≤ max_items }
    requires cover { Cover tables.now (rules_of indexed.now) }
    requires marked { IsMarked indexed.now }
    requires moved_there { (p : Pair) × IsAt indexed.now.items moved.now p }
    requires other_there { (q : Pair) × IsAt indexed.now.items other.now q }
    ensures { result ≡ true → (p q : Pair) → IsAt indexed.now.items moved.now p → IsAt indexed.now.items other.now q
        → spec.StandsAloneOn way indexed.now.items moved.now.item other.now.item p q }
{
    match way {
        Way::Up => stands_alone(indexed, tables, moved, other),
        Way::Down => stands_alone(indexed, tables, other, moved),
    }
}

/// Returns a barrier that the two pairs of an obstacle make in a way, or `None` if it finds none.
fn barrier_between(
    indexed: &IndexedSheet,
    tables: &Tables,
    step: &Step,
    way: Way,
    obstacle: &Obstacle,
    other: &PairPlace,
) -> Option<NewBarrier>
    requires few { length indexed.now.items ≤ max_items }
    requires cover { Cover tables.now (rules_of indexed.now) }
    requires marked { IsMarked indexed.now }
    requires step_of { HasStep indexed.now.items step.now }
    requires blocked { (answers : List Answered) × IsBlockedBy answers indexed.now.items step.now obstacle.now }
    requires pair { obstacle.now.other ≡ others.Pair other.now }
    ensures { IfSome result (λ w. spec.MakesBarrierFor indexed.now step.now obstacle.now w.way w.item_id w.barrier) }
{
    if !is_barrier(indexed, tables, way, &obstacle.moved, other) {
        return None;
    }
    let order_key = indexed.mark(other.item).order_key;
    let item_id = indexed.mark(obstacle.moved.item).item_id;
    let decl = obstacle.moved.decl;
    Some(NewBarrier {
        way,
        item_id,
        barrier: Barrier { order_key, decl },
    })
}

/// Returns a barrier that an obstacle of a step makes, or `None` if it finds none.
fn barrier_of(
    indexed: &IndexedSheet,
    tables: &Tables,
    step: &Step,
    obstacle: &Obstacle,
) -> Option<NewBarrier>
    requires few { length indexed.now.items ≤ max_items }
    requires cover { Cover tables.now (rules_of indexed.now) }
    requires marked { IsMarked indexed.now }
    requires step_of { HasStep indexed.now.items step.now }
    requires blocked { (answers : List Answered) × IsBlockedBy answers indexed.now.items step.now obstacle.now }
    ensures { IfSome result (λ w. spec.MakesBarrierFor indexed.now step.now obstacle.now w.way w.item_id w.barrier) }
{
    let (mover, way) = mover_of(indexed, step)?;
    if mover != obstacle.moved.item {
        return None;
    }
    match &obstacle.other {
        Other::Pair(other) => barrier_between(indexed, tables, step, way, obstacle, other),
        Other::Kept(_) => None,
    }
}

/// Makes room for a barrier under an item id. All barriers whose order key is not 0 were there before.
fn grow(barriers: &mut Vec<Barrier>, item_id: u32) -> Result<(), AllocError>
    ensures room { OnOk result (item_id < length barriers.new.items) }
    ensures long { OnOk result ((next : ℕ) → length barriers.old.items ≤ next → item_id < next → length barriers.new.items ≤ next) }
    ensures left { OnOk result ((b : ℕ) (l : declared.Barrier) → slice_get barriers.new.items b ≡ Some l → 0 < l.order_key → slice_get barriers.old.items b ≡ Some l) }
{
    let item_id = item_id as usize;
    if barriers.len() <= item_id {
        let none = Barrier {
            order_key: 0,
            decl: 0,
        };
        barriers.resize(item_id + 1, none)?;
    }
    Ok(())
}

/// Returns the order key of the barrier under an item id, or 0 if there is none.
fn order_key_under(barriers: &[Barrier], item_id: u32) -> u64 {
    match barriers.get(item_id as usize) {
        Some(barrier) => barrier.order_key,
        None => 0,
    }
}

/// Whether a barrier hinders more steps than the one that its item has in the same way.
fn hinders_more(barriers: &Barriers, new: &NewBarrier) -> bool {
    let order_key = new.barrier.order_key;
    match new.way {
        Way::Up => order_key_under(&barriers.ups, new.item_id) < order_key,
        Way::Down => {
            let old = order_key_under(&barriers.downs, new.item_id);
            old == 0 || order_key < old
        }
    }
}

/// Puts a barrier under an item id, instead of the one that is there.
fn put_at(barriers: &mut Vec<Barrier>, item_id: usize, barrier: Barrier)
    requires { item_id < length barriers.old.items }
    ensures long { length barriers.new.items ≡ length barriers.old.items }
    ensures each { (b : ℕ) (l : declared.Barrier) → slice_get barriers.new.items b ≡ Some l → 0 < l.order_key → (slice_get barriers.old.items b ≡ Some l) ⊎ ((b ≡ item_id) × (l ≡ barrier)) }
{
    barriers[item_id] = barrier;
}

/// Puts a barrier under its item id, instead of the one that is there. It makes room before.
fn put_under(barriers: &mut Vec<Barrier>, new: &NewBarrier) -> Result<(), AllocError>
    ensures { OnOk result (spec.IsRaised barriers.old.items barriers.new.items new.now.item_id new.now.barrier) }
{
    grow(barriers, new.item_id)?;
    put_at(barriers, new.item_id as usize, new.barrier);
    Ok(())
}

/// Puts a barrier among those in its way, instead of the one of its item.
fn set(barriers: &mut Barriers, new: &NewBarrier) -> Result<(), AllocError>
    ensures { OnOk result (spec.IsSet barriers.old barriers.new new.now.way new.now.item_id new.now.barrier) }
{
    match new.way {
        Way::Up => put_under(&mut barriers.ups, new),
        Way::Down => put_under(&mut barriers.downs, new),
    }
}

/// Sets a barrier that an obstacle makes, and puts the candidate of all steps of its item in its way on the watch list.
/// An entry of the candidate is under each pair of what the obstacle names. All else of the plan stays.
fn put_barrier(plan: &mut Plan, barrier: &NewBarrier, obstacle: &Obstacle) -> Result<(), AllocError>
    requires { (by : Hindrance) × Names plan.old.indexed.items obstacle.now by }
    ensures same { OnOk result (plan.new ≡ record plan.old { entries = plan.new.entries; barriers = plan.new.barriers }) }
    ensures more { OnOk result ((x : Entry) → Contains plan.old.entries x → Contains plan.new.entries x) }
    ensures put { OnOk result (spec.HasMovesEntries plan.old.indexed.items plan.new.entries obstacle.now barrier.now.way barrier.now.item_id) }
    ensures set { OnOk result (spec.IsSet plan.old.barriers plan.new.barriers barrier.now.way barrier.now.item_id barrier.now.barrier) }
{
    put_all(plan, barrier.way, barrier.item_id, obstacle)?;
    set(&mut plan.barriers, barrier)
}

/// Sets a barrier that an obstacle of a step makes, if it finds one that hinders more than the one that its item has.
/// The candidates of the plan stay.
/// What stood for the steps of the plan's sheet still does, by all answers by which the obstacle blocks the step.
pub(crate) fn set_barrier(
    plan: &mut Plan,
    step: &Step,
    obstacle: &Obstacle,
) -> Result<(), AllocError>
    requires indexed { (source : List ℕ) × IsIndexed source plan.old }
    requires step_of { HasStep plan.old.indexed.items step.now }
    requires blocked { (answers : List Answered) × IsBlockedBy answers plan.old.indexed.items step.now obstacle.now }
    ensures same { OnOk result (plan.new ≡ record plan.old { entries = plan.new.entries; barriers = plan.new.barriers }) }
    ensures queued { OnOk result ((answers : List Answered) (source : List ℕ) (candidate : pending.Candidate) → IsBlockedBy answers plan.old.indexed.items step.now obstacle.now
        → IsQueuedBy answers source plan.old (candidate ∷ plan.old.candidates) → IsQueuedBy answers source plan.new (candidate ∷ plan.new.candidates)) }
{
    barriers_stay();
    let Some(barrier) = barrier_of(&plan.indexed, &plan.tables, step, obstacle) else {
        return Ok(());
    };
    if !hinders_more(&plan.barriers, &barrier) {
        return Ok(());
    }
    put_barrier(plan, &barrier, obstacle)
}

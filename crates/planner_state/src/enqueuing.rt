//! What a plan does for the items that are created.

ghost use Rattle.std.specs.Prelude.{◌≡◌, ◌≢◌, ◌<◌, ◌≤◌, ◌∷◌, [], ℕ, List, IfSome, OnOk, Some, length, slice_get, true};
ghost use Rattle.std.specs.List.{AllPairs, Contains};
ghost use Rattle.css_model.specs.declared.sheet.Item.TheVariants as kinds;
ghost use Rattle.css_model.specs.Sheets.RuleParts.{RuleParts};
ghost use Rattle.planner_state.specs.Enqueuing as spec;
ghost use Rattle.queue_laws.specs.MarkNames.{IsMarked};
ghost use Rattle.step_queue.specs.Told.{candidate_told};
ghost use Rattle.planner_state.specs.Created.{AreCreated};
ghost use Rattle.rule_tables.specs.Tables as covering;

use css_model::{Item, MAX_BYTES};
use indexed_sheet::{IndexedSheet, Mark};
use rule_tables::Tables;
use smallvec::SmallVec;
use std::alloc::AllocError;
use std::cmp::Reverse;
use step_queue::{Candidate, FIRST_ROOM, Kind, Queue, Scope};

/// Returns the priority that comes before all steps of the item of this item id.
fn first_candidate(owner: u32) -> Candidate
    ensures { candidate_told result ≡ spec.first_candidate owner }
{
    Candidate {
        saving: Reverse(MAX_BYTES + 1),
        kind: Kind::DeclCut,
        first: 0,
        second: 0,
        owner,
        scope: Scope::Owned,
        room: FIRST_ROOM,
    }
}

/// Puts the order key of a mark under its item id.
fn put_home(homes: &mut Vec<u64>, mark: &Mark) -> Result<(), AllocError>
    ensures put { OnOk result (slice_get homes.new.items mark.now.item_id ≡ Some mark.now.order_key) }
    ensures others { OnOk result ((b l : ℕ) → b ≢ mark.now.item_id → slice_get homes.old.items b ≡ Some l → slice_get homes.new.items b ≡ Some l) }
{
    let item_id = mark.item_id as usize;
    if homes.len() <= item_id {
        homes.resize(item_id + 1, 0)?;
    }
    homes[item_id] = mark.order_key;
    Ok(())
}

/// Puts an item into the tables, if it is a rule.
fn put_in(tables: &mut Tables, item: &Item, order_key: u64) -> Result<(), AllocError>
    ensures stay { OnOk result ((rules : List covering.OrderKeyed) → covering.Cover tables.old rules → covering.Cover tables.new rules) }
    ensures covered { OnOk result ((r : RuleParts) → item.now ≡ kinds.Rule r → covering.Cover tables.new (covering.with_order_key r order_key ∷ [])) }
{
    match item {
        Item::Rule(rule) => tables.insert(rule, order_key),
        _ => Ok(()),
    }
}

/// Puts an item into the tables, if `put` is `true` and it is a rule.
fn cover(tables: &mut Tables, put: bool, item: &Item, order_key: u64) -> Result<(), AllocError>
    ensures stay { OnOk result ((rules : List covering.OrderKeyed) → covering.Cover tables.old rules → covering.Cover tables.new rules) }
    ensures covered { OnOk result (put ≡ true → (r : RuleParts) → item.now ≡ kinds.Rule r → covering.Cover tables.new (covering.with_order_key r order_key ∷ [])) }
{
    if !put {
        return Ok(());
    }
    put_in(tables, item, order_key)
}

/// Returns the mark of this number.
fn mark_at(marks: &[Mark], number: usize) -> &Mark
    requires { number < length marks.now }
    ensures { slice_get marks.now number ≡ Some result.now }
{
    &marks[number]
}

/// Returns the item of this number.
fn item_at(items: &[Item], number: usize) -> &Item
    requires { number < length items.now }
    ensures { slice_get items.now number ≡ Some result.now }
{
    &items[number]
}

/// Enqueues an item: queues a priority before all its steps, and puts its order key under its item id.
/// If `put` is `true` and the item is a rule, the tables cover it.
fn enqueue_item(
    put: bool,
    mark: &Mark,
    item: &Item,
    tables: &mut Tables,
    queue: &mut Queue,
    homes: &mut Vec<u64>,
) -> Result<(), AllocError>
    ensures enqueued { OnOk result (spec.IsEnqueued put tables.new queue.new homes.new.items mark.now item.now) }
    ensures stay { OnOk result (spec.StayBut mark.now.item_id tables.old queue.old homes.old.items tables.new queue.new homes.new.items) }
{
    put_home(homes, mark)?;
    cover(tables, put, item, mark.order_key)?;
    queue.add(first_candidate(mark.item_id))
}

/// Enqueues an item if it was created at `next` or later.
fn enqueue_if_new(
    put: bool,
    next: u32,
    mark: &Mark,
    item: &Item,
    tables: &mut Tables,
    queue: &mut Queue,
    homes: &mut Vec<u64>,
) -> Result<(), AllocError>
    ensures enqueued { OnOk result (next ≤ mark.now.item_id → spec.IsEnqueued put tables.new queue.new homes.new.items mark.now item.now) }
    ensures stay { OnOk result (spec.StayBut mark.now.item_id tables.old queue.old homes.old.items tables.new queue.new homes.new.items) }
    ensures early { OnOk result (spec.StayBefore next tables.old queue.old homes.old.items tables.new queue.new homes.new.items) }
{
    if mark.item_id < next {
        return Ok(());
    }
    enqueue_item(put, mark, item, tables, queue, homes)
}

/// Enqueues each item that was created at `next` or later. Its mark has the same number.
fn enqueue_each(
    put: bool,
    next: u32,
    marks: &[Mark],
    items: &[Item],
    tables: &mut Tables,
    queue: &mut Queue,
    homes: &mut Vec<u64>,
) -> Result<(), AllocError>
    requires as_many { length marks.now ≡ length items.now }
    requires differ { AllPairs (λ m n. m.item_id ≢ n.item_id) marks.now }
    ensures enqueued { OnOk result (spec.AreEnqueued put next marks.now items.now tables.new queue.new homes.new.items) }
    ensures stay { OnOk result (spec.StayBefore next tables.old queue.old homes.old.items tables.new queue.new homes.new.items) }
{
    'numbers: for number in 0..marks.len() {
        let mark = mark_at(marks, number);
        let item = item_at(items, number);
        enqueue_if_new(put, next, mark, item, tables, queue, homes)?;
    }
    Ok(())
}

/// Enqueues the items of these numbers that were created at `next` or later.
fn enqueue_those(
    put: bool,
    next: u32,
    numbers: &[u32],
    marks: &[Mark],
    items: &[Item],
    tables: &mut Tables,
    queue: &mut Queue,
    homes: &mut Vec<u64>,
) -> Result<(), AllocError>
    requires there { (n : ℕ) → Contains numbers.now n → n < length marks.now }
    requires as_many { length marks.now ≡ length items.now }
    requires differ { AllPairs (λ m n. m.item_id ≢ n.item_id) marks.now }
    ensures enqueued { OnOk result ((n : ℕ) → Contains numbers.now n → spec.IsEnqueuedAt put next marks.now items.now tables.new queue.new homes.new.items n) }
    ensures stay { OnOk result (spec.StayBefore next tables.old queue.old homes.old.items tables.new queue.new homes.new.items) }
{
    let mut rest = numbers;
    'rest: while let Some((number, behind)) = rest.split_first() {
        let mark = mark_at(marks, *number as usize);
        let item = item_at(items, *number as usize);
        enqueue_if_new(put, next, mark, item, tables, queue, homes)?;
        rest = behind;
    }
    Ok(())
}

/// Enqueues all items of an indexed sheet that were created at `next` or later.
/// `created` may have the numbers of all of them.
pub(crate) fn enqueue(
    put: bool,
    indexed: &IndexedSheet,
    next: u32,
    created: &Option<SmallVec<u32, 4>>,
    tables: &mut Tables,
    queue: &mut Queue,
    homes: &mut Vec<u64>,
) -> Result<(), AllocError>
    requires created { IfSome created.now (λ numbers. AreCreated indexed.now next numbers.items) }
    ensures marked { OnOk result (IsMarked indexed.now) }
    ensures enqueued { OnOk result (spec.AreEnqueued put next indexed.now.marks indexed.now.items tables.new queue.new homes.new.items) }
    ensures stay { OnOk result (spec.StayBefore next tables.old queue.old homes.old.items tables.new queue.new homes.new.items) }
{
    let marks = indexed.marks();
    let items = indexed.items();
    match created {
        Some(numbers) => enqueue_those(put, next, numbers, marks, items, tables, queue, homes),
        None => enqueue_each(put, next, marks, items, tables, queue, homes),
    }
}

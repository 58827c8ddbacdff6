//! Reindexes the tables of a plan for a step.

ghost use Rattle.std.specs.Prelude.{◌≡◌, ◌<◌, IfOk, IfSome, OnOk, Some, length, slice_get};
ghost use Rattle.pending_laws.specs.Ways.{IsMove, mover, partner};
ghost use Rattle.queue_laws.specs.Beside.{CoverFollows};
ghost use Rattle.order_laws.specs.Edits.{Edit};
ghost use Rattle.indexed_sheet.specs.MarkList.{order_keys_of};
ghost use Rattle.planner_state.specs.Reindexing.{AreReindexed};
ghost use Rattle.step_laws.specs.Steps.{HasStep, IsStep};

use crate::leaving::uncover;
use indexed_sheet::{IndexedSheet, Mark, way_of_join};
use pending_laws::Way;
use queue_laws::cover_follows_joins;
use rule_tables::Tables;
use std::alloc::AllocError;
use step_laws::Step;
use step_savings::{items_of, rule_at};

/// Returns the number of the item that moves in a join, and that of the item that it moves into.
fn moved_items(way: Way, step: &Step) -> (u32, u32)
    ensures { result ≡ (mover way step.now, partner way step.now) }
{
    let (first, last) = items_of(step);
    match way {
        Way::Up => (last, first),
        Way::Down => (first, last),
    }
}

/// Returns the order key of the mark of this number.
fn order_key_at(marks: &[Mark], number: u32) -> u64
    requires { number < length marks.now }
    ensures { slice_get (order_keys_of marks.now) number ≡ Some result }
{
    marks[number as usize].order_key
}

/// Puts the rule that moves in a join under the order key of its partner, and takes it out under its own order key.
/// After the join the tables cover all rules.
fn move_over(
    tables: &mut Tables,
    indexed: &IndexedSheet,
    way: Way,
    step: &Step,
) -> Result<(), AllocError>
    requires is_step { HasStep indexed.now.items step.now }
    requires moves { IsMove way step.now }
    ensures { OnOk result ((e : Edit) → IsStep indexed.now.items step.now e → CoverFollows way indexed.now step.now e tables.old tables.new) }
{
    cover_follows_joins();
    let (moved, other) = moved_items(way, step);
    let marks = indexed.marks();
    let own = order_key_at(marks, moved);
    let order_key = order_key_at(marks, other);
    let rule = rule_at(indexed.items(), moved);
    tables.insert(rule, order_key)?;
    tables.remove(rule, own);
    Ok(())
}

/// Reindexes the tables for a step before it is taken.
/// If it returns `true`, the tables still cover each rule that the step leaves; the rules that the step makes are to be put
/// in. If it returns `false`, the step is a join, and the tables cover all rules after it.
pub(crate) fn reindex(
    tables: &mut Tables,
    indexed: &IndexedSheet,
    step: &Step,
) -> Result<bool, AllocError>
    requires { HasStep indexed.now.items step.now }
    ensures { IfOk result (λ put. AreReindexed put indexed.now step.now tables.old tables.new) }
{
    let Some(way) = way_of_join(step) else {
        uncover(tables, indexed, step);
        return Ok(true);
    };
    move_over(tables, indexed, way, step)?;
    Ok(false)
}

//! The plan of a sheet.

ghost use Rattle.std.specs.Prelude.{◌≡◌, IfOk, map};
ghost use Rattle.merge_plan.specs.Blocked.{AreBlockedSteps};
ghost use Rattle.plan_laws.specs.Plannable.{IsPlannable};
ghost use Rattle.sheet_order.specs.Laws.{answer_seen};
ghost use Rattle.step_laws.specs.Free.{AreAmong};
ghost use Rattle.step_laws.specs.Leading.{IsDone, Leads};

use crate::blocked::blocked_steps;
use crate::planned::Plan;
use css_model::Sheet;
use merge_laws::leading_makes_of;
use overlap::Pairs;
use planner::{Merged, merge};
use std::alloc::{AllocError, Global};
use std::mem;
use step_obstacles::PairObstacles;

/// Returns what a copy of a sheet merges to. It asks for the answers that are missing.
fn merged_sheet(
    alloc: Global,
    pairs: &mut Pairs,
    source: &[u8],
    sheet: Sheet,
) -> Result<Merged, AllocError>
    requires plannable { IsPlannable source.now sheet.items }
    ensures asked { AreAmong (map answer_seen pairs.old.answers) (map answer_seen pairs.new.answers) }
    ensures same_budget { pairs.new.budget ≡ pairs.old.budget }
    ensures leads { IfOk result (λ m. Leads (map answer_seen pairs.new.answers) source.now m.taken sheet.items m.sheet.items) }
    ensures done { IfOk result (λ m. IsDone (map answer_seen pairs.new.answers) source.now m.sheet.items) }
{
    let held = mem::replace(pairs, Pairs::new(alloc, 0));
    let mut obstacles = PairObstacles::new(alloc, held);
    let merged = merge(alloc, &mut obstacles, source, sheet);
    *pairs = obstacles.into_pairs();
    merged
}

/// Plans a sheet: takes steps until nothing is left to do, and lists the steps that are left.
/// Each step is the next one by the answers that `pairs` holds afterwards. The sheet can be planned (`IsPlannable`). All
/// that was answered stays, and the budget, also after `Err(AllocError)` (memory is short).
pub fn plan(
    alloc: Global,
    pairs: &mut Pairs,
    source: &[u8],
    sheet: &Sheet,
) -> Result<Plan, AllocError>
    requires plannable { IsPlannable source.now sheet.now.items }
    ensures asked { AreAmong (map answer_seen pairs.old.answers) (map answer_seen pairs.new.answers) }
    ensures same_budget { pairs.new.budget ≡ pairs.old.budget }
    ensures leads { IfOk result (λ p. Leads (map answer_seen pairs.new.answers) source.now p.taken sheet.now.items p.sheet.items) }
    ensures done { IfOk result (λ p. IsDone (map answer_seen pairs.new.answers) source.now p.sheet.items) }
    ensures blocked { IfOk result (λ p. AreBlockedSteps pairs.new.answers source.now p.sheet.items p.blocked.items) }
{
    leading_makes_of();
    let copy = sheet.copy()?;
    let merged = merged_sheet(alloc, pairs, source, copy)?;
    let blocked = blocked_steps(alloc, pairs, source, &merged.sheet)?;
    Ok(Plan {
        sheet: merged.sheet,
        taken: merged.taken,
        blocked,
    })
}

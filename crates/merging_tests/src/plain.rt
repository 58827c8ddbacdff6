//! The plan in the plainest way: each step of a sheet is looked at for each step that is taken.

ghost use Rattle.std.specs.Prelude.{◌≤◌, ℕ, IfSome, List, length};
ghost use Rattle.css_model.specs.Sheets.Limits.{max_bytes};
ghost use Rattle.plan_laws.specs.Plannable.{IsPlannable};
ghost use Rattle.step_laws.specs.Steps.{HasStep};

use crate::asking::obstacle_of;
use crate::sheets::after;
use cnf::NO_LIMIT;
use css_model::Sheet;
use merge_laws::read_keeps_the_limits;
use merge_steps::{Step, is_step, saving, steps};
use overlap::Pairs;
use std::alloc::Global;
use std::process::Abort;
use step_laws::parts_are_few;
use step_obstacles::PairObstacles;

/// More steps than the sheets of the tests have.
const MANY: u32 = 1000;

/// How many bytes a step of a sheet saves.
fn saved(rt: &impl Abort, alloc: Global, source: &[u8], sheet: &Sheet, step: &Step) -> i64
    requires short { length source.now ≤ max_bytes }
    requires plannable { IsPlannable source.now sheet.now.items }
    ensures { HasStep sheet.now.items step.now }
{
    let is_step = is_step(alloc, &sheet.items, step).expect(rt, "memory");
    assert!(rt; is_step);
    saving(sheet, source, step)
}

/// Whether nothing blocks a step of a sheet.
fn is_free(
    rt: &impl Abort,
    alloc: Global,
    obstacles: &mut PairObstacles,
    sheet: &Sheet,
    step: &Step,
) -> bool
    requires is_step { HasStep sheet.now.items step.now }
    requires plannable { (source : List ℕ) × IsPlannable source sheet.now.items }
{
    obstacle_of(rt, alloc, obstacles, sheet, step, None)
        .expect(rt, "memory")
        .is_none()
}

/// The free step that saves the most bytes, the first of these; `None` if each step that saves something is blocked.
fn next_step(
    rt: &impl Abort,
    alloc: Global,
    obstacles: &mut PairObstacles,
    source: &[u8],
    sheet: &Sheet,
) -> Option<Step>
    requires short { length source.now ≤ max_bytes }
    requires plannable { IsPlannable source.now sheet.now.items }
    ensures { IfSome result (HasStep sheet.now.items) }
{
    parts_are_few();
    read_keeps_the_limits();
    let list = steps(alloc, sheet).expect(rt, "memory");
    let mut most = 0;
    let mut best = None;
    for step in &list {
        let saved = saved(rt, alloc, source, sheet, step);
        if saved > most && is_free(rt, alloc, obstacles, sheet, step) {
            most = saved;
            best = Some(*step);
        }
    }
    best
}

/// What a sheet becomes, and how many steps that takes.
pub(crate) fn merged(rt: &impl Abort, alloc: Global, source: &[u8], old: Sheet) -> (Sheet, u32)
    requires short { length source.now ≤ max_bytes }
    requires plannable { IsPlannable source.now old.items }
{
    let mut obstacles = PairObstacles::new(alloc, Pairs::new(alloc, NO_LIMIT));
    let mut sheet = old;
    for taken in 0..MANY {
        match next_step(rt, alloc, &mut obstacles, source, &sheet) {
            Some(step) => sheet = after(rt, alloc, source, &sheet, &step),
            None => return (sheet, taken),
        }
    }
    (sheet, MANY)
}

//! What blocks a step of a sheet, asked as a plan asks it.

ghost use Rattle.std.specs.Prelude.{◌≡◌, ◌≤◌, ℕ, List, length};
ghost use Rattle.css_model.specs.Sheets.Limits.{max_items};
ghost use Rattle.plan_laws.specs.Plannable.{IsPlannable};
ghost use Rattle.step_laws.specs.Steps.{HasStep};

use css_model::Sheet;
use indexed_sheet::IndexedSheet;
use obstacles::{Obstacle, Obstacles, Stopped};
use std::alloc::Global;
use std::process::Abort;
use step_laws::Step;

/// An indexed sheet with the items of a sheet. It knows nothing of them.
fn indexed(rt: &impl Abort, alloc: Global, sheet: &Sheet) -> IndexedSheet
    requires { length sheet.now.items ≤ max_items }
    ensures { result.items ≡ sheet.now.items }
{
    let copy = sheet.copy().expect(rt, "memory");
    IndexedSheet::new(alloc, copy).expect(rt, "memory")
}

/// What blocks a step of a sheet of which nothing is known. No answer is asked for if `most_answers` are held.
pub(crate) fn obstacle_of<O: Obstacles>(
    rt: &impl Abort,
    alloc: Global,
    obstacles: &mut O,
    sheet: &Sheet,
    step: &Step,
    most_answers: Option<usize>,
) -> Result<Option<Obstacle>, Stopped>
    requires is_step { HasStep sheet.now.items step.now }
    requires plannable { (source : List ℕ) × IsPlannable source sheet.now.items }
{
    let indexed = indexed(rt, alloc, sheet);
    obstacles.obstacle(&indexed, step, most_answers)
}

//! The bodies of opened blocks, merged, each as a sheet of its own.

ghost use Rattle.std.specs.Prelude.{◌≡◌, ℕ, ◌≤◌, IfOk, Some, false, true};
ghost use Rattle.std.specs.List.{AllByRecursion};
ghost use Rattle.css_model.specs.Sheets.Limits.{max_bytes};
ghost use Rattle.css_model.specs.Text.Source.{text_at};
ghost use Rattle.planner.specs.Working.{spent_of};
ghost use Rattle.media_groups.specs.Laws.{IsBlockOf};
ghost use Rattle.merge_text.specs.Working.{StaysSpent, left_of};
ghost use Rattle.opened_merge_laws.specs.Bodies.{bytes_in};
ghost use Rattle.opened_merge_laws.specs.Merged.{IsSpent};
ghost use Rattle.opened_merge_laws.specs.Plans.{AreBodyPlansWithin, IsBodyPlanWithin};
ghost use Rattle.step_laws.specs.Free.{AreAmong};

use css_model::Sheet;
use media_groups::Media;
use merge_laws::{read_is_plannable, read_keeps_the_limits};
use obstacles::Obstacles;
use planner::{Merged, merge_within};
use print_laws::printed_is_no_longer;
use std::alloc::{AllocError, Global};

/// What the bodies of opened blocks became, and by how many steps together.
#[derive(Drop)]
pub(crate) struct MergedBodies {
    /// The sheet of each body, in the order of the blocks.
    pub sheets: Vec<Sheet>,
    /// How many steps were taken.
    pub taken: u32,
    /// Whether the work was spent.
    pub spent: bool,
}

/// What is left of a bound after so many steps.
pub(crate) fn left(work: Option<u32>, taken: u32) -> Option<u32>
    ensures { result ≡ left_of work taken }
{
    match work {
        Some(work) => Some(work.saturating_sub(taken)),
        None => None,
    }
}

/// Whether there is a bound, and it was spent.
fn is_over(work: Option<u32>, spent: bool) -> bool
    ensures over { result ≡ true → (n : ℕ) × (work ≡ Some n) × (spent ≡ true) }
    ensures left { result ≡ false → (n : ℕ) → work ≡ Some n → spent ≡ false }
{
    match work {
        Some(_) => spent,
        None => false,
    }
}

/// The body of an opened block, merged by its own bytes; or as it was read, if the work was spent before.
fn merge_body<O: Obstacles>(
    alloc: Global,
    obstacles: &mut O,
    source: &[u8],
    block: &Media,
    work: Option<u32>,
    spent: bool,
) -> Result<Merged, AllocError>
    requires block { IsBlockOf source.now block.now }
    requires enough { IsSpent (spent_of work spent) (O.answers obstacles.old) 0 }
    ensures asked { AreAmong (O.answers obstacles.old) (O.answers obstacles.new) }
    ensures same_budget { O.budget obstacles.new ≡ O.budget obstacles.old }
    ensures plan { IfOk result (λ m. IsBodyPlanWithin (spent_of work m.spent) (O.answers obstacles.new) source.now block.now m.taken m.sheet) }
    ensures enough { IfOk result (λ m. IsSpent (spent_of work m.spent) (O.answers obstacles.new) m.taken) }
    ensures stays { IfOk result (λ m. StaysSpent work spent m.spent) }
{
    read_is_plannable();
    read_keeps_the_limits();
    let sheet = block.sheet.copy()?;
    if is_over(work, spent) {
        return Ok(Merged {
            sheet,
            taken: 0,
            spent,
        });
    }
    merge_within(alloc, obstacles, block.body.text(source), sheet, work)
}

/// The bodies of opened blocks, merged one after the other, by the answers that are held at the end. Their work is bounded
/// together, if there is a bound, and may be spent before.
pub(crate) fn merge_bodies<O: Obstacles>(
    alloc: Global,
    obstacles: &mut O,
    source: &[u8],
    media: &[Media],
    work: Option<u32>,
    spent: bool,
) -> Result<MergedBodies, AllocError>
    requires blocks { AllByRecursion (IsBlockOf source.now) media.now }
    requires enough { IsSpent (spent_of work spent) (O.answers obstacles.old) 0 }
    requires short { bytes_in source.now media.now ≤ max_bytes }
    ensures asked { AreAmong (O.answers obstacles.old) (O.answers obstacles.new) }
    ensures same_budget { O.budget obstacles.new ≡ O.budget obstacles.old }
    ensures plans { IfOk result (λ b. AreBodyPlansWithin (spent_of work b.spent) (O.answers obstacles.new) source.now media.now b.taken b.sheets.items) }
    ensures enough { IfOk result (λ b. IsSpent (spent_of work b.spent) (O.answers obstacles.new) b.taken) }
    ensures stays { IfOk result (λ b. StaysSpent work spent b.spent) }
{
    printed_is_no_longer();
    let mut sheets = Vec::new(alloc);
    let mut taken = 0;
    let mut spent = spent;
    let mut rest = media;
    'bodies: while let [block, others @ ..] = rest {
        let room = left(work, taken);
        let merged = merge_body(alloc, obstacles, source, block, room, spent)?;
        taken += merged.taken;
        spent = merged.spent;
        sheets.push(merged.sheet)?;
        rest = others;
    }
    Ok(MergedBodies {
        sheets,
        taken,
        spent,
    })
}

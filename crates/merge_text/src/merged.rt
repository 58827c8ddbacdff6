//! A merged text for a style sheet.

ghost use Rattle.std.specs.Prelude.{◌≡◌, ℕ, IfErr, IfOk, Option};
ghost use Rattle.css_model.specs.Sheets.Sheet.{sheet_of};
ghost use Rattle.media_groups.specs.Printed.{printed_with};
ghost use Rattle.merge_text.specs.MergedTexts.{IsMergedBy, IsPlannedFrom, IsTold, IsToldBy};
ghost use Rattle.opened_merge_laws.specs.Merged.{IsMergedOpened};
ghost use Rattle.sheet_read.specs.Reading.{Refuses};
ghost use Rattle.step_laws.specs.Free.{AreAmong};

use crate::counting::{count, count_sheets};
use crate::planned::{Planned, blocks_of, plan, print_planned};
use media_groups::opened_blocks_are_sheets;
use merge_laws::{leading_makes_of, read_keeps_the_limits};
use obstacles::Obstacles;
use opened_merge_laws::{planned_is_merged_opened, planned_is_told_opened};
use sheet_laws::read_is_sound;
use sheet_read::{SheetError, read_with_lexemes};
use std::alloc::Global;

/// The text of a merged sheet, and what a report says of it.
#[derive(Debug, Drop)]
pub struct MergedText {
    /// The text.
    pub text: Vec<u8>,
    /// How many items were read, with those inside opened blocks.
    pub read_items: u32,
    /// How many items the text has, with those inside opened blocks.
    pub written_items: u32,
    /// How many steps were taken, with those inside opened blocks.
    pub taken: u32,
    /// Whether it ended because its work was spent. Something may be left to do then.
    pub spent: bool,
}

/// The text of a planned sheet, with what a report says of it.
fn told<O: Obstacles>(obstacles: &O, source: &[u8], planned: &Planned, text: Vec<u8>) -> MergedText
    requires from { (work : Option ℕ) × IsPlannedFrom work (O.answers obstacles.now) source.now planned.now }
    requires printed { text.items ≡ printed_with source.now planned.now.media.items planned.now.bodies.items planned.now.sheet.items }
    ensures merged { (work : Option ℕ) → IsPlannedFrom work (O.answers obstacles.now) source.now planned.now → IsMergedBy work (O.answers obstacles.now) source.now result }
    ensures told { (work : Option ℕ) → IsPlannedFrom work (O.answers obstacles.now) source.now planned.now → IsToldBy work (O.answers obstacles.now) source.now result }
{
    read_keeps_the_limits();
    read_is_sound();
    leading_makes_of();
    opened_blocks_are_sheets();
    planned_is_merged_opened();
    planned_is_told_opened();
    obstacles.answers_are_true();
    let written_items = count(&planned.sheet) + count_sheets(planned.bodies.as_slice());
    MergedText {
        text,
        read_items: planned.read_items,
        written_items,
        taken: planned.taken,
        spent: planned.spent,
    }
}

/// The merged text of a style sheet with bounded work, as bytes: the plan ends where nothing is left to do, or where the
/// steps that were taken and the answers that `obstacles` holds are together `work` or more. The steps are those of the
/// sheet and of its opened bodies together. Each step is the next one, whatever the bound. Without a bound it does what
/// `merge_text` does.
///
/// `source` is any list of bytes. `Fault` exactly where the sheet has one, with its place in bytes from 0. `NoMemory`
/// where memory is short. All earlier answers stay, and the budget.
pub fn merge_text_within<O: Obstacles>(
    alloc: Global,
    obstacles: &mut O,
    source: &[u8],
    work: Option<u32>,
) -> Result<MergedText, SheetError>
    ensures asked { AreAmong (O.answers obstacles.old) (O.answers obstacles.new) }
    ensures same_budget { O.budget obstacles.new ≡ O.budget obstacles.old }
    ensures merged { IfOk result (λ m. IsMergedBy work (O.answers obstacles.new) source.now m) }
    ensures told { IfOk result (λ m. IsToldBy work (O.answers obstacles.new) source.now m) }
    ensures err { IfErr result (λ e. Refuses e (sheet_of source.now)) }
{
    let (sheet, lexemes) = read_with_lexemes(alloc, source)?;
    let (media, reading) = blocks_of(alloc, &sheet, source, lexemes)?;
    let planned = plan(alloc, obstacles, source, sheet, media, work)?;
    let text = print_planned(alloc, obstacles, source, reading, &planned)?;
    Ok(told(obstacles, source, &planned, text))
}

/// The merged text of a style sheet, as bytes: no more of them than the source has, with the same winners of related
/// declarations in every legal document and every scene of its kept items (CSS Cascading 3, section 6). Nothing is left to
/// do in it, nor in the body of an opened block, by the answers that `obstacles` holds afterwards. All earlier answers
/// stay, and the budget.
///
/// `source` is any list of bytes. `Fault` exactly where the sheet has one, with its place in bytes from 0. `NoMemory`
/// where memory is short.
pub fn merge_text<O: Obstacles>(
    alloc: Global,
    obstacles: &mut O,
    source: &[u8],
) -> Result<MergedText, SheetError>
    ensures asked { AreAmong (O.answers obstacles.old) (O.answers obstacles.new) }
    ensures same_budget { O.budget obstacles.new ≡ O.budget obstacles.old }
    ensures merged { IfOk result (λ m. IsMergedOpened (O.answers obstacles.new) source.now m.text.items) }
    ensures told { IfOk result (λ m. IsTold (O.answers obstacles.new) source.now m) }
    ensures err { IfErr result (λ e. Refuses e (sheet_of source.now)) }
{
    merge_text_within(alloc, obstacles, source, None)
}

//! A sheet that was planned with the bodies of its opened blocks.

ghost use Rattle.std.specs.Prelude.{◌≡◌, ℕ, [], IfOk, None, Ok, Option};
ghost use Rattle.std.specs.List.{list_any};
ghost use Rattle.std.specs.Option.{IfSome};
ghost use Rattle.css_model.specs.Sheets.Sheet.{sheet_of};
ghost use Rattle.css_model.specs.Sheets.Spelling.{lexemes_of};
ghost use Rattle.media_groups.specs.Opened.{opened_of};
ghost use Rattle.media_groups.specs.Printed.{printed_with};
ghost use Rattle.merge_text.specs.Counts.{is_block};
ghost use Rattle.merge_text.specs.MergedTexts.{IsPlannedFrom};
ghost use Rattle.step_laws.specs.Free.{AreAmong};

use crate::bodies::{left, merge_bodies};
use crate::counting::{count, count_bodies};
use css_model::{Item, Lexeme, Sheet};
use css_print::print_sheet;
use media_groups::{
    Media, Reading, open_media_in, opened_blocks_are_sheets, print_opened, reading_with,
};
use merge_laws::{leading_makes_of, read_is_plannable, read_keeps_the_limits};
use obstacles::Obstacles;
use opened_merge_laws::{opened_bodies_stand_apart, planned_bodies_are_sound};
use planner::merge_within;
use print_laws::printed_is_no_longer;
use sheet_laws::read_is_sound;
use std::alloc::{AllocError, Global};

/// What plans made of a sheet and of the bodies of its opened blocks.
#[derive(Drop)]
pub(crate) struct Planned {
    /// What the sheet became.
    pub sheet: Sheet,
    /// The blocks that are opened.
    pub media: Vec<Media>,
    /// What the body of each became.
    pub bodies: Vec<Sheet>,
    /// How many items were read, with those of the bodies.
    pub read_items: u32,
    /// How many steps were taken, with those in the bodies.
    pub taken: u32,
    /// Whether the work was spent.
    pub spent: bool,
}

/// Whether an item is a kept block.
fn is_block(item: &Item) -> bool
    ensures { result ≡ is_block item.now }
{
    match item {
        Item::KeptBlock(_) => true,
        _ => false,
    }
}

/// Whether a block is kept among items.
fn has_block(items: &[Item]) -> bool
    ensures { result ≡ list_any is_block items.now }
{
    items.iter().any(|item| is_block(item))
}

/// The opened blocks of a sheet, and its source with these tokens where there are any.
pub(crate) fn blocks_of<'a>(
    alloc: Global,
    sheet: &Sheet,
    source: &'a [u8],
    lexemes: Vec<Lexeme>,
) -> Result<(Vec<Media>, Option<Reading<'a>>), AllocError>
    requires read { sheet_of source.now ≡ Ok sheet.now.items }
    requires lexemes { lexemes.items ≡ lexemes_of source.now }
    ensures media { IfOk result (λ o. o.0.items ≡ opened_of sheet.now.items source.now) }
    ensures none { IfOk result (λ o. o.1 ≡ None → o.0.items ≡ []) }
    ensures source { IfOk result (λ o. IfSome o.1 (λ r. r.source.now ≡ source.now)) }
{
    if !has_block(sheet.items.as_slice()) {
        return Ok((Vec::new(alloc), None));
    }
    let reading = reading_with(sheet, source, lexemes);
    let media = open_media_in(alloc, sheet, &reading)?;
    if media.is_empty() {
        Ok((media, None))
    } else {
        Ok((media, Some(reading)))
    }
}

/// Plans a sheet that was read, and then the body of each of its opened blocks, all with one bound if there is one.
pub(crate) fn plan<O: Obstacles>(
    alloc: Global,
    obstacles: &mut O,
    source: &[u8],
    sheet: Sheet,
    media: Vec<Media>,
    work: Option<u32>,
) -> Result<Planned, AllocError>
    requires read { sheet_of source.now ≡ Ok sheet.items }
    requires media { media.items ≡ opened_of sheet.items source.now }
    ensures asked { AreAmong (O.answers obstacles.old) (O.answers obstacles.new) }
    ensures same_budget { O.budget obstacles.new ≡ O.budget obstacles.old }
    ensures planned { IfOk result (λ p. IsPlannedFrom work (O.answers obstacles.new) source.now p) }
    ensures same_media { IfOk result (λ p. p.media.items ≡ media.items) }
{
    read_is_plannable();
    read_keeps_the_limits();
    opened_blocks_are_sheets();
    opened_bodies_stand_apart();
    printed_is_no_longer();
    let blocks = media.as_slice();
    let read_items = count(&sheet) + count_bodies(blocks);
    let outside = merge_within(alloc, obstacles, source, sheet, work)?;
    let room = left(work, outside.taken);
    let inside = merge_bodies(alloc, obstacles, source, blocks, room, outside.spent)?;
    Ok(Planned {
        sheet: outside.sheet,
        media,
        bodies: inside.sheets,
        read_items,
        taken: outside.taken + inside.taken,
        spent: inside.spent,
    })
}

/// The text of a planned sheet, by its source with its tokens where blocks are opened.
pub(crate) fn print_planned<O: Obstacles>(
    alloc: Global,
    obstacles: &O,
    source: &[u8],
    reading: Option<Reading<'_>>,
    planned: &Planned,
) -> Result<Vec<u8>, AllocError>
    requires from { (work : Option ℕ) × IsPlannedFrom work (O.answers obstacles.now) source.now planned.now }
    requires none { reading ≡ None → planned.now.media.items ≡ [] }
    requires source { IfSome reading (λ r. r.source.now ≡ source.now) }
    ensures { IfOk result (λ text. text.items ≡ printed_with source.now planned.now.media.items planned.now.bodies.items planned.now.sheet.items) }
{
    read_keeps_the_limits();
    read_is_sound();
    leading_makes_of();
    planned_bodies_are_sound();
    match reading {
        None => print_sheet(alloc, &planned.sheet, source),
        Some(reading) => print_opened(
            alloc,
            &planned.sheet,
            &reading,
            planned.media.as_slice(),
            planned.bodies.as_slice(),
        ),
    }
}

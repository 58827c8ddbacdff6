//! The items of a style sheet with their numbers and places, from bytes to bytes.

ghost use Rattle.std.specs.Prelude.{◌≡◌, Ok, IfErr, IfOk};
ghost use Rattle.std.specs.List.{AllByRecursion};
ghost use Rattle.css_model.specs.Sheets.Sheet.{sheet_of};
ghost use Rattle.css_model.specs.Sheets.Sound.{IsSound};
ghost use Rattle.doc_text.specs.DocText.{ended};
ghost use Rattle.media_groups.specs.Opened.{opened_of};
ghost use Rattle.list_text.specs.ListTexts as spec;
ghost use Rattle.list_text.specs.Standing.{IsBody};
ghost use Rattle.sheet_read.specs.Reading.{Refuses};

use crate::level::ListedLevel;
use crate::walking::put_items;
use css_model::Sheet;
use line_places::Lines;
use media_groups::{open_media, opened_blocks_are_sheets, reading_of};
use sheet_laws::read_is_sound;
use sheet_read::{SheetError, read_sheet};
use std::alloc::{AllocError, Global};

/// The lines of the items of a sheet that was read.
fn lines_of_sheet(alloc: Global, source: &[u8], sheet: &Sheet) -> Result<Vec<u8>, AllocError>
    requires read { sheet_of source.now ≡ Ok sheet.now.items }
    requires sound { IsSound source.now sheet.now.items }
    requires bodies { AllByRecursion (IsBody source.now) (opened_of sheet.now.items source.now) }
    ensures { IfOk result (λ text. text.items ≡ ended (spec.list_lines source.now sheet.now.items)) }
{
    let lines = Lines::new(alloc, source)?;
    let media = open_media(alloc, sheet, source)?;
    let level = ListedLevel {
        block: None,
        start: 0,
        reading: reading_of(alloc, sheet, source)?,
        items: &sheet.items,
    };
    let mut out = Vec::new(alloc);
    put_items(&mut out, alloc, &lines, &level, &media)?;
    Ok(out)
}

/// The items of a style sheet, as lines of bytes. Each item has a line `NUMBER LINE:COLUMN KIND HEAD`, in order.
///
/// - The number counts from 1, as in a report. The items of the body of an opened `@media` block come after the block,
///   with its number, a dot and their own number.
/// - The place is where the item begins in `source`, by line and column (`line_places`).
/// - The kind is `rule`; `media`, an opened block; `kept:R`, a rule that is kept for the reason of the number R; or
///   `block`, anything else that is kept.
/// - The head is what comes before the block: of a rule its printed selectors with `,` between them, of what is kept its
///   kept text. Control codes of ASCII are spaces in it.
///
/// Each line ends with a line feed. `source` is any list of bytes. `Fault` exactly where the sheet has one, with its
/// place in bytes from 0. `NoMemory` where memory is short.
#[tactic(auto, using(crate::proofs::Reading::lists_read))]
pub fn list_lines(alloc: Global, source: &[u8]) -> Result<Vec<u8>, SheetError>
    ensures lists { IfOk result (λ text. spec.IsListText source.now text.items) }
    ensures err { IfErr result (λ e. Refuses e (sheet_of source.now)) }
{
    // Laws that the contract needs; they do nothing.
    read_is_sound();
    opened_blocks_are_sheets();
    let sheet = read_sheet(alloc, source)?;
    Ok(lines_of_sheet(alloc, source, &sheet)?)
}

//! The report of a merged text.

ghost use Rattle.std.specs.Prelude.{◌≡◌, ℕ, List, IfOk, Ok, Some, map, true};
ghost use Rattle.css_model.specs.declared.sheet.Item as declared;
ghost use Rattle.css_model.specs.Sheets.Sheet.{sheet_of};
ghost use Rattle.merge_report.specs.Reports.{IsReport, IsSpentReport, IsSummary};
ghost use Rattle.merge_text.specs.MergedTexts.{IsTold, IsToldBy};
ghost use Rattle.opened_merge_laws.specs.Merged.{IsMergedOpened};
ghost use Rattle.sheet_order.specs.Allowing.{Stays};
ghost use Rattle.sheet_order.specs.Laws.{answer_seen};

use crate::remaining::remaining_opened;
use css_model::Sheet;
use merge_text::MergedText;
use overlap::Pairs;
use report_text::report;
use sheet_read::{SheetError, read_sheet};
use std::alloc::{AllocError, Global};

/// The sheet of a text that has no fault.
fn sheet_of_text(alloc: Global, text: &[u8]) -> Result<Sheet, AllocError>
    requires { (items : List declared.Item) × (sheet_of text.now ≡ Ok items) }
    ensures { IfOk result (λ sheet. sheet_of text.now ≡ Ok sheet.items) }
{
    match read_sheet(alloc, text) {
        Ok(sheet) => Ok(sheet),
        Err(SheetError::NoMemory) => Err(AllocError),
        Err(SheetError::Fault(_)) => unreachable!(),
    }
}

/// The report of the text that a source was merged to, as bytes: its numbers, and each step of it that still saves
/// something, with its cause by the answers that are held afterwards. The steps inside opened blocks come last. It asks
/// for more pairs than merging does. All that was answered stays. `AllocError` where memory runs out; it stays then
/// too.
pub fn merge_report(
    alloc: Global,
    pairs: &mut Pairs,
    source: &[u8],
    merged: &MergedText,
) -> Result<Vec<u8>, AllocError>
    requires merged { IsMergedOpened (map answer_seen pairs.old.answers) source.now merged.now.text.items }
    requires told { IsTold (map answer_seen pairs.old.answers) source.now merged.now }
    ensures stays { Stays pairs.old pairs.new }
    ensures report { IfOk result (λ report. IsReport pairs.new.answers source.now merged.now.text.items report.items) }
{
    let text = merged.text.as_slice();
    let sheet = sheet_of_text(alloc, text)?;
    let blocked = remaining_opened(alloc, pairs, text, &sheet)?;
    let items = (merged.read_items, merged.written_items);
    let bytes = (source.len() as u64, text.len() as u64);
    report(alloc, items, bytes, merged.taken, blocked.as_slice())
}

/// The first lines of the report of a merged text, as bytes: how many items and how many bytes were read and written,
/// and how many steps were taken. `AllocError` where memory runs out.
pub fn merge_summary(
    alloc: Global,
    pairs: &Pairs,
    source: &[u8],
    merged: &MergedText,
) -> Result<Vec<u8>, AllocError>
    requires { IsTold (map answer_seen pairs.now.answers) source.now merged.now }
    ensures { IfOk result (λ text. IsSummary pairs.now.answers source.now merged.now.text.items text.items) }
{
    let _pairs = pairs;
    let items = (merged.read_items, merged.written_items);
    let bytes = (source.len() as u64, merged.text.len() as u64);
    report(alloc, items, bytes, merged.taken, &[])
}

/// The report of a merged text whose work was spent, as bytes: its numbers, and the line `work spent`. It lists no steps:
/// what blocks those that are left was not asked. `AllocError` where memory runs out.
pub fn spent_report(
    alloc: Global,
    pairs: &Pairs,
    source: &[u8],
    merged: &MergedText,
) -> Result<Vec<u8>, AllocError>
    ensures { IfOk result (λ text. (work : ℕ) → merged.now.spent ≡ true → IsToldBy (Some work) (map answer_seen pairs.now.answers) source.now merged.now
        → IsSpentReport work pairs.now.answers source.now merged.now.text.items text.items) }
{
    let _pairs = pairs;
    let items = (merged.read_items, merged.written_items);
    let bytes = (source.len() as u64, merged.text.len() as u64);
    let mut text = report(alloc, items, bytes, merged.taken, &[])?;
    text.extend_from_slice(b"work spent\n")?;
    Ok(text)
}

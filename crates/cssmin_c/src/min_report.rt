//! The call that merges a sheet and reports on it.

ghost use Rattle.std.specs.Prelude.{◌≡◌, ◌≢◌, true, IfErr, IfOk};
ghost use Rattle.css_model.specs.Sheets.Sheet.{sheet_of};
ghost use Rattle.cssmin_c.specs.Calls.{GivesBoth, IsRefused, LacksRoomForBoth};
ghost use Rattle.cssmin_c.specs.declared.statuses.TheConstants.{DONE, NO_ROOM, REFUSED};
ghost use Rattle.cssmin_c.specs.Statuses.{is_status};
ghost use Rattle.cssmin_c.specs.Texts.{IsReportedText};
ghost use Rattle.sheet_read.specs.Reading.{Refuses};

use crate::giving::give_both;
use crate::min::merged;
use crate::statuses::NO_MEMORY;
use crate::told::{Told, refuse};
use merge_report::merge_report;
use merge_text::MergedText;
use sheet_read::SheetError;
use std::alloc::Global;

/// The merged text of a sheet, and its report.
#[tactic(auto, using(crate::proofs::Made::reported_text))]
fn merged_and_told(
    alloc: Global,
    budget: u32,
    sheet: &[u8],
) -> Result<(Vec<u8>, Vec<u8>), SheetError>
    ensures ok { IfOk result (λ m. IsReportedText budget sheet.now m.0.items m.1.items) }
    ensures err { IfErr result (λ e. Refuses e (sheet_of sheet.now)) }
{
    let (mut pairs, merged) = merged(alloc, budget, sheet)?;
    let report = merge_report(alloc, &mut pairs, sheet, &merged)?;
    pairs.are_true();
    let MergedText { text, .. } = merged;
    Ok((text, report))
}

/// Merges a sheet as `cssmin_min` does, and puts its text into `out` and the report on it into `report`.
///
/// `DONE` where both texts are in their buffers. `NO_ROOM` where one of them is longer than its buffer; then both buffers
/// stay. `REFUSED` and `NO_MEMORY` come as from `cssmin_min`.
#[unsafe(no_mangle)]
pub extern "C" fn cssmin_min_report(
    alloc: Global,
    sheet: &[u8],
    budget: u32,
    out: &mut [u8],
    report: &mut [u8],
    told: &mut Told,
) -> u32
    ensures status { is_status result ≡ true }
    ensures done { result ≡ DONE → GivesBoth (IsReportedText budget sheet.now) out.old out.new report.old report.new told.old told.new }
    ensures refused { result ≡ REFUSED → IsRefused sheet.now told.old told.new }
    ensures no_room { result ≡ NO_ROOM → LacksRoomForBoth (IsReportedText budget sheet.now) out.old report.old told.old told.new }
    ensures no_memory { result ≡ NO_MEMORY → told.new ≡ told.old }
    ensures untouched { result ≢ DONE → out.new ≡ out.old }
    ensures report_untouched { result ≢ DONE → report.new ≡ report.old }
{
    match merged_and_told(alloc, budget, sheet) {
        Ok((text, lines)) => give_both(text.as_slice(), out, lines.as_slice(), report, told),
        Err(SheetError::Fault(fault)) => refuse(fault, told),
        Err(SheetError::NoMemory) => NO_MEMORY,
    }
}

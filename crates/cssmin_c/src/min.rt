//! The call that merges a sheet.

ghost use Rattle.std.specs.Prelude.{◌≡◌, ◌≢◌, ◌<◌, ◌≤◌, true, length, IfErr, IfOk};
ghost use Rattle.css_model.specs.Sheets.Sheet.{sheet_of};
ghost use Rattle.cssmin_c.specs.Calls.{Gives, IsRefused, LacksRoom};
ghost use Rattle.cssmin_c.specs.declared.statuses.TheConstants.{DONE, NO_ROOM, REFUSED};
ghost use Rattle.cssmin_c.specs.Statuses.{is_status};
ghost use Rattle.cssmin_c.specs.Texts.{IsMergedBy, IsMergedText};
ghost use Rattle.sheet_read.specs.Reading.{Refuses};

use crate::giving::give;
use crate::statuses::NO_MEMORY;
use crate::told::{Told, refuse};
use merge_text::{MergedText, merge_text};
use overlap::Pairs;
use sheet_read::SheetError;
use std::alloc::Global;
use step_obstacles::PairObstacles;

/// The merged text of a sheet, with the answers that were asked for.
pub(crate) fn merged(
    alloc: Global,
    budget: u32,
    sheet: &[u8],
) -> Result<(Pairs, MergedText), SheetError>
    ensures ok { IfOk result (λ m. IsMergedBy budget sheet.now m.0 m.1) }
    ensures err { IfErr result (λ e. Refuses e (sheet_of sheet.now)) }
{
    let mut obstacles = PairObstacles::new(alloc, Pairs::new(alloc, budget));
    let merged = merge_text(alloc, &mut obstacles, sheet)?;
    Ok((obstacles.into_pairs(), merged))
}

/// The merged text of a sheet.
#[tactic(auto, using(crate::proofs::Made::merged_text, crate::proofs::Made::is_no_longer))]
fn merged_alone(alloc: Global, budget: u32, sheet: &[u8]) -> Result<Vec<u8>, SheetError>
    ensures ok { IfOk result (λ text. IsMergedText budget sheet.now text.items) }
    ensures no_longer { IfOk result (λ text. length text.items ≤ length sheet.now) }
    ensures err { IfErr result (λ e. Refuses e (sheet_of sheet.now)) }
{
    let (pairs, merged) = merged(alloc, budget, sheet)?;
    pairs.are_true();
    let MergedText { text, .. } = merged;
    Ok(text)
}

/// Merges a sheet of any bytes, and puts its text into `out`: the same winners of related declarations in every legal
/// document and every scene of its kept items (CSS Cascading 3, section 6), in no more bytes. The budget is how many
/// clauses may be learned for a pair of selectors; 4,294,967,295 stands for none.
///
/// `DONE` where the text is in `out`. `REFUSED` where the sheet has a fault, which is told, with its place in bytes from
/// 0. `NO_ROOM` where the text is longer than `out`, which is never so if `out` is as long as the sheet. `NO_MEMORY` where
/// memory is short.
#[unsafe(no_mangle)]
pub extern "C" fn cssmin_min(
    alloc: Global,
    sheet: &[u8],
    budget: u32,
    out: &mut [u8],
    told: &mut Told,
) -> u32
    ensures status { is_status result ≡ true }
    ensures done { result ≡ DONE → Gives (IsMergedText budget sheet.now) out.old out.new told.old told.new }
    ensures refused { result ≡ REFUSED → IsRefused sheet.now told.old told.new }
    ensures no_room { result ≡ NO_ROOM → LacksRoom (IsMergedText budget sheet.now) out.old told.old told.new }
    ensures short { result ≡ NO_ROOM → length out.old < length sheet.now }
    ensures no_memory { result ≡ NO_MEMORY → told.new ≡ told.old }
    ensures untouched { result ≢ DONE → out.new ≡ out.old }
{
    match merged_alone(alloc, budget, sheet) {
        Ok(text) => give(text.as_slice(), out, told),
        Err(SheetError::Fault(fault)) => refuse(fault, told),
        Err(SheetError::NoMemory) => NO_MEMORY,
    }
}

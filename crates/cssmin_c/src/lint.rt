//! The call that names what can go from a sheet.

ghost use Rattle.std.specs.Prelude.{◌≡◌, ◌≢◌, true, IfErr, IfOk};
ghost use Rattle.css_model.specs.Sheets.Sheet.{sheet_of};
ghost use Rattle.cssmin_c.specs.Calls.{Gives, IsRefused, LacksRoom};
ghost use Rattle.cssmin_c.specs.declared.statuses.TheConstants.{DONE, NO_ROOM, REFUSED};
ghost use Rattle.cssmin_c.specs.Statuses.{is_status};
ghost use Rattle.cssmin_c.specs.Texts.{IsFindings};
ghost use Rattle.sheet_read.specs.Reading.{Refuses};

use crate::giving::give;
use crate::statuses::NO_MEMORY;
use crate::told::{Told, refuse};
use lint_text::lint_lines;
use overlap::Pairs;
use sheet_read::SheetError;
use std::alloc::Global;

/// The lines of what is found in a sheet.
#[tactic(auto, using(crate::proofs::Made::findings))]
fn findings(alloc: Global, budget: u32, sheet: &[u8]) -> Result<Vec<u8>, SheetError>
    ensures ok { IfOk result (λ text. IsFindings budget sheet.now text.items) }
    ensures err { IfErr result (λ e. Refuses e (sheet_of sheet.now)) }
{
    let mut pairs = Pairs::new(alloc, budget);
    lint_lines(alloc, &mut pairs, sheet)
}

/// Looks for what can go from a sheet of any bytes without a change of its winners, and puts a line for each finding into
/// `out`: selectors that match nothing, and declarations that come again. The budget is that of `cssmin_min`.
///
/// `DONE` where the lines are in `out`. `NO_ROOM` where they are longer than `out`. `REFUSED` and `NO_MEMORY` come as from
/// `cssmin_min`.
#[unsafe(no_mangle)]
pub extern "C" fn cssmin_lint(
    alloc: Global,
    sheet: &[u8],
    budget: u32,
    out: &mut [u8],
    told: &mut Told,
) -> u32
    ensures status { is_status result ≡ true }
    ensures done { result ≡ DONE → Gives (IsFindings budget sheet.now) out.old out.new told.old told.new }
    ensures refused { result ≡ REFUSED → IsRefused sheet.now told.old told.new }
    ensures no_room { result ≡ NO_ROOM → LacksRoom (IsFindings budget sheet.now) out.old told.old told.new }
    ensures no_memory { result ≡ NO_MEMORY → told.new ≡ told.old }
    ensures untouched { result ≢ DONE → out.new ≡ out.old }
{
    match findings(alloc, budget, sheet) {
        Ok(text) => give(text.as_slice(), out, told),
        Err(SheetError::Fault(fault)) => refuse(fault, told),
        Err(SheetError::NoMemory) => NO_MEMORY,
    }
}

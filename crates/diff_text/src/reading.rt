//! Two sheets read.

ghost use Rattle.std.specs.Prelude.{◌≡◌, Ok, IfErr, IfOk};
ghost use Rattle.css_model.specs.Sheets.Sheet.{sheet_of};
ghost use Rattle.same_text.specs.SameTexts as spec;

use css_model::{FaultKind, MAX_BYTES, Sheet, SheetFault};
use same_text::SameError;
use sheet_read::{SheetError, read_sheet};
use std::alloc::Global;

/// The sheet that the first of two texts is read as.
pub(crate) fn first_sheet(alloc: Global, text: &[u8]) -> Result<Sheet, SameError>
    ensures ok { IfOk result (λ sheet. sheet_of text.now ≡ Ok sheet.items) }
    ensures err { IfErr result (λ e. spec.IsFirst text.now e) }
{
    match read_sheet(alloc, text) {
        Ok(sheet) => Ok(sheet),
        Err(SheetError::Fault(fault)) => Err(SameError::First(fault)),
        Err(SheetError::NoMemory) => Err(SameError::NoMemory),
    }
}

/// The sheet that the second of two texts is read as.
pub(crate) fn second_sheet(alloc: Global, text: &[u8]) -> Result<Sheet, SameError>
    ensures ok { IfOk result (λ sheet. sheet_of text.now ≡ Ok sheet.items) }
    ensures err { IfErr result (λ e. spec.IsSecond text.now e) }
{
    match read_sheet(alloc, text) {
        Ok(sheet) => Ok(sheet),
        Err(SheetError::Fault(fault)) => Err(SameError::Second(fault)),
        Err(SheetError::NoMemory) => Err(SameError::NoMemory),
    }
}

/// The fault of a sheet of too many bytes.
pub(crate) fn too_long() -> SheetFault
    ensures { result ≡ spec.too_long_fault }
{
    SheetFault {
        kind: FaultKind::TooLong,
        at: MAX_BYTES,
    }
}

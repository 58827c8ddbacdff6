//! The place in an input that its refusal tells.

ghost use Rattle.std.specs.Prelude.{◌≡◌, take, drop};
ghost use Rattle.cssmin_run.specs.Placed as spec;

use crate::status::Status;
use css_model::{FaultKind, SheetFault};
use line_places::{Place, place_in};
use style_text::split_input;

/// Whether a fault of this kind is at a place in its sheet: any but that the sheet is too long.
fn has_place(kind: FaultKind) -> bool
    ensures { result ≡ spec.has_place kind }
{
    match kind {
        FaultKind::TooLong => false,
        _ => true,
    }
}

/// The line and the column of a fault in the bytes of its sheet.
fn fault_place(sheet: &[u8], fault: SheetFault) -> Option<Place>
    ensures { result ≡ spec.fault_place sheet.now fault }
{
    if has_place(fault.kind) {
        Some(place_in(sheet, fault.at as usize))
    } else {
        None
    }
}

/// The line and the column of the fault of a sheet that was read, if it was refused for one.
pub(crate) fn in_sheet(status: Status, bytes: &[u8]) -> Option<Place>
    ensures { result ≡ spec.in_sheet status bytes.now }
{
    match status {
        Status::SheetRefused(fault) => fault_place(bytes, fault),
        _ => None,
    }
}

/// The line and the column of the fault of the sheet after a document, in this sheet.
pub(crate) fn in_sheet_part(status: Status, bytes: &[u8]) -> Option<Place>
    ensures { result ≡ spec.in_sheet_part status bytes.now }
{
    let (_, sheet) = split_input(bytes);
    in_sheet(status, sheet)
}

/// The bytes of two sheets, of which the first one has so many, or all that there are.
fn split_sheets(bytes: &[u8], split: u32) -> (&[u8], &[u8])
    ensures first { result.0.now ≡ take split bytes.now }
    ensures second { result.1.now ≡ drop split bytes.now }
{
    if (split as usize) <= bytes.len() {
        bytes.split_at(split as usize)
    } else {
        (bytes, &[])
    }
}

/// The line and the column of the fault of one of two sheets, in its own bytes. The first sheet has so many bytes.
pub(crate) fn in_two_sheets(split: u32, status: Status, bytes: &[u8]) -> Option<Place>
    ensures { result ≡ spec.in_two_sheets split status bytes.now }
{
    let (first, second) = split_sheets(bytes, split);
    match status {
        Status::SheetRefused(fault) => fault_place(first, fault),
        Status::SecondRefused(fault) => fault_place(second, fault),
        _ => None,
    }
}

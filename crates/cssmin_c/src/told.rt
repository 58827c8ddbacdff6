//! What a call tells its caller.

ghost use Rattle.std.specs.Prelude.{◌≡◌};
ghost use Rattle.cssmin_c.specs.Calls.{with_fault};

use crate::statuses::{REFUSED, kind_number};
use css_model::SheetFault;

/// What a call tells its caller. The clauses of a call say which fields it sets at which status.
#[repr(C)]
#[derive(Clone, Copy)]
pub struct Told {
    /// How many bytes the text has.
    pub length: usize,
    /// How many bytes the report has.
    pub report_length: usize,
    /// The number of the kind of the fault, from 1.
    pub fault_kind: u32,
    /// Where the fault is, in bytes from 0.
    pub fault_at: u32,
}

/// Tells a fault, for which a sheet is refused.
pub(crate) fn refuse(fault: SheetFault, told: &mut Told) -> u32
    ensures status { result ≡ REFUSED }
    ensures told { told.new ≡ with_fault told.old fault }
{
    told.fault_kind = kind_number(fault.kind);
    told.fault_at = fault.at;
    REFUSED
}

//! Writing a text that a command made, and its report.

ghost use Rattle.std.specs.Prelude.{◌≡◌, ◌≢◌, ◌≤◌, ℕ, List};
ghost use Rattle.cssmin_run.specs.Change.{change_of};
ghost use Rattle.cssmin_run.specs.Writing.{AddsFront, Writes};

use crate::status::Status;
use crate::telling::tell_write_fault;
use css_io::{Sink, write_all};

/// Writes a text to `out`, and then its report to `err`. The status is `Done`, or `WriteFault` where a write failed.
/// Then a front of the text was written, and `err` says so; or all of it was written, and a front of the report.
pub(crate) fn write_text<O: Sink, E: Sink>(
    text: &[u8],
    report: &[u8],
    out: &mut O,
    err: &mut E,
) -> Status
    requires out_fits { (bytes : List ℕ) → O.fits out.old bytes }
    requires err_fits { (bytes : List ℕ) → E.fits err.old bytes }
    ensures wrote { Writes text.now report.now result
        (change_of O.written O.faults out.old out.new)
        (change_of E.written E.faults err.old err.new) }
    ensures untouched { result ≢ Status.Done → result ≢ Status.WriteFault → out.new ≡ out.old }
    ensures out_later { O.faults out.old ≤ O.faults out.new }
    ensures err_later { E.faults err.old ≤ E.faults err.new }
{
    match write_all(out, text) {
        Ok(()) => {}
        Err(_) => {
            tell_write_fault(err);
            return Status::WriteFault;
        }
    }
    match write_all(err, report) {
        Ok(()) => Status::Done,
        Err(_) => Status::WriteFault,
    }
}

//! The command `trial`: a made sheet is merged; on the output what its merged text has.

ghost use Rattle.std.specs.Prelude.{◌≡◌, ◌≢◌, ◌≤◌, ℕ, List, Some, IfOk, IfErr};
ghost use Rattle.css_model.specs.Sheets.Sheet.{sheet_of};
ghost use Rattle.cssmin_run.specs.Change.{change_of};
ghost use Rattle.cssmin_run.specs.Commands.Trial.{TrialDoes, Tries};
ghost use Rattle.sheet_read.specs.Reading.{Refuses};
ghost use Rattle.trial_gen.specs.Made.{made_sheet};

use crate::commands::min::merged;
use crate::status::Status;
use crate::telling::tell_no_memory;
use crate::writing::write_text;
use css_io::Sink;
use made_laws::made_sheets_have_no_fault;
use merge_report::merge_summary;
use overlap::Pairs;
use sheet_read::SheetError;
use std::alloc::Global;
use trial_gen::make_sheet;

/// The numbers of a made sheet and of its merged text, with the answers that were asked for.
fn tried(alloc: Global, rules: u32) -> Result<(Pairs, Vec<u8>), SheetError>
    requires { rules ≤ 2000 }
    ensures ok { IfOk result (λ t. Tries rules t.1.items (Some t.0)) }
    ensures err { IfErr result (λ e. Refuses e (sheet_of (made_sheet rules))) }
{
    let sheet = make_sheet(alloc, rules)?;
    let (pairs, merged) = merged(alloc, None, None, sheet.as_slice())?;
    let text = merge_summary(alloc, &pairs, sheet.as_slice(), &merged)?;
    pairs.are_true();
    Ok((pairs, text))
}

/// Merges a made sheet of so many rules, and writes to `out` how many items and bytes it had and has, and how many
/// steps were taken. Nothing is written before the whole text is made. A made sheet has no fault, so none is refused.
/// `held` is afterwards the answers that were asked for, and none if nothing was written.
pub(crate) fn trial<O: Sink, E: Sink>(
    alloc: Global,
    rules: u32,
    out: &mut O,
    err: &mut E,
    held: &mut Option<Pairs>,
) -> Status
    requires few { rules ≤ 2000 }
    requires out_fits { (bytes : List ℕ) → O.fits out.old bytes }
    requires err_fits { (bytes : List ℕ) → E.fits err.old bytes }
    ensures outcome { TrialDoes rules result
        (change_of O.written O.faults out.old out.new)
        (change_of E.written E.faults err.old err.new) held.new }
    ensures untouched { result ≢ Status.Done → result ≢ Status.WriteFault → out.new ≡ out.old }
    ensures out_later { O.faults out.old ≤ O.faults out.new }
    ensures err_later { E.faults err.old ≤ E.faults err.new }
{
    match tried(alloc, rules) {
        Ok((pairs, text)) => {
            *held = Some(pairs);
            write_text(text.as_slice(), &[], out, err)
        }
        Err(SheetError::NoMemory) => {
            *held = None;
            tell_no_memory(err);
            Status::NoMemory
        }
        Err(SheetError::Fault(_)) => {
            made_sheets_have_no_fault();
            unreachable!()
        }
    }
}

//! What a run writes to standard error.

ghost use Rattle.std.specs.Prelude.{◌≡◌, ◌⊎◌, ◌≤◌, ℕ, List, Some, IfOk, string_bytes};
ghost use Rattle.cssmin_run.specs.Change.{change_of};
ghost use Rattle.cssmin_run.specs.Placed.{IsPlacedMessage, TellsAt};
ghost use Rattle.cssmin_run.specs.Status.{IsMessage, IsRefusal};
ghost use Rattle.cssmin_run.specs.Telling.{IsTold, Tells};

use crate::status::{LogFault, Status};
use command_texts::refusal_text;
use css_io::{Sink, write_all};
use css_model::SheetFault;
use line_places::Place;
use std::alloc::{AllocError, Global};
use style_text::DocFault;

/// The line that names the fault of a sheet.
fn refusal(alloc: Global, fault: SheetFault) -> Result<String, AllocError>
    ensures { IfOk result (λ text. IsMessage (Status.SheetRefused fault) (string_bytes text)) }
{
    format!(in alloc; "refused: {fault}\n")
}

/// The line that names the fault of a sheet, with its line and column.
#[tactic(auto, using(crate::proofs::Told::placed_message))]
fn placed_refusal(alloc: Global, fault: SheetFault, place: Place) -> Result<String, AllocError>
    ensures { IfOk result (λ text. IsPlacedMessage (Some place) (Status.SheetRefused fault) (string_bytes text)) }
{
    let line = place.line;
    let column = place.column;
    format!(in alloc; "refused: {fault} ({line}:{column})\n")
}

/// The line that names the fault of the second sheet, with its line and column.
fn placed_second(alloc: Global, fault: SheetFault, place: Place) -> Result<String, AllocError>
    ensures { IfOk result (λ text. IsPlacedMessage (Some place) (Status.SecondRefused fault) (string_bytes text)) }
{
    let line = place.line;
    let column = place.column;
    format!(in alloc; "second refused: {fault} ({line}:{column})\n")
}

/// The line that names the fault of a log.
fn log_refusal(alloc: Global, fault: LogFault) -> Result<String, AllocError>
    ensures { IfOk result (λ text. IsMessage (Status.LogRefused fault) (string_bytes text)) }
{
    match fault {
        LogFault::TooLong => String::from_str(alloc, "log refused: too long\n"),
        LogFault::BadLine(line) => format!(in alloc; "log refused: line {line}\n"),
    }
}

/// The line that names the fault of a document.
fn doc_refusal(alloc: Global, fault: DocFault) -> Result<String, AllocError>
    ensures { IfOk result (λ text. IsMessage (Status.DocRefused fault) (string_bytes text)) }
{
    format!(in alloc; "document refused: {fault}\n")
}

/// The line that names the number that no item has.
fn item_refusal(alloc: Global, number: u32) -> Result<String, AllocError>
    ensures { IfOk result (λ text. IsMessage (Status.NoItem number) (string_bytes text)) }
{
    format!(in alloc; "no item {number}\n")
}

/// The line that names the number of bytes that the input lacks.
fn split_refusal(alloc: Global, number: u32) -> Result<String, AllocError>
    ensures { IfOk result (λ text. IsMessage (Status.NoSplit number) (string_bytes text)) }
{
    format!(in alloc; "no split {number}\n")
}

/// The line that names the fault of the second sheet.
fn second_refusal(alloc: Global, fault: SheetFault) -> Result<String, AllocError>
    ensures { IfOk result (λ text. IsMessage (Status.SecondRefused fault) (string_bytes text)) }
{
    format!(in alloc; "second refused: {fault}\n")
}

/// Writes a text, as far as that goes.
fn tell_text<E: Sink>(text: &[u8], err: &mut E)
    requires { (bytes : List ℕ) → E.fits err.old bytes }
    ensures told { IsTold text.now (change_of E.written E.faults err.old err.new) }
    ensures later { E.faults err.old ≤ E.faults err.new }
{
    let _ = write_all(err, text);
}

/// Writes why words are refused. Where there is no memory for that, it writes the form of all words.
fn tell_usage<E: Sink>(alloc: Global, words: &Vec<String>, err: &mut E)
    requires { (bytes : List ℕ) → E.fits err.old bytes }
    ensures told { Tells Status.Usage (change_of E.written E.faults err.old err.new) }
    ensures later { E.faults err.old ≤ E.faults err.new }
{
    match refusal_text(alloc, words) {
        Ok(text) => tell_text(text.as_slice(), err),
        Err(AllocError) => tell_text(b"usage: cssmin COMMAND\n", err),
    }
}

/// Writes that memory was short. The answer is the status of that.
pub(crate) fn tell_no_memory<E: Sink>(err: &mut E) -> Status
    requires { (bytes : List ℕ) → E.fits err.old bytes }
    ensures is { result ≡ Status.NoMemory }
    ensures told { Tells Status.NoMemory (change_of E.written E.faults err.old err.new) }
    ensures later { E.faults err.old ≤ E.faults err.new }
{
    tell_text(b"out of memory\n", err);
    Status::NoMemory
}

/// Writes that a write failed.
pub(crate) fn tell_write_fault<E: Sink>(err: &mut E)
    requires { (bytes : List ℕ) → E.fits err.old bytes }
    ensures told { Tells Status.WriteFault (change_of E.written E.faults err.old err.new) }
    ensures later { E.faults err.old ≤ E.faults err.new }
{
    tell_text(b"write fault\n", err);
}

/// Writes this line, why the input was refused, where there was memory for it. The answer is the status of that, or
/// that there was no memory.
fn tell_refusal<E: Sink>(line: Result<String, AllocError>, status: Status, err: &mut E) -> Status
    requires fits { (bytes : List ℕ) → E.fits err.old bytes }
    requires message { IfOk line (λ text. IsMessage status (string_bytes text)) }
    ensures is { (result ≡ status) ⊎ (result ≡ Status.NoMemory) }
    ensures told { Tells result (change_of E.written E.faults err.old err.new) }
    ensures later { E.faults err.old ≤ E.faults err.new }
{
    match line {
        Ok(line) => {
            tell_text(line.as_bytes(), err);
            status
        }
        Err(AllocError) => tell_no_memory(err),
    }
}

/// Writes the status of a run on these words to standard error. The answer is the status, or that there was no memory
/// to write why the input was refused.
pub(crate) fn tell<E: Sink>(
    alloc: Global,
    words: &Vec<String>,
    status: Status,
    err: &mut E,
) -> Status
    requires { (bytes : List ℕ) → E.fits err.old bytes }
    ensures same { (result ≡ status) ⊎ (IsRefusal status × (result ≡ Status.NoMemory)) }
    ensures told { Tells result (change_of E.written E.faults err.old err.new) }
    ensures later { E.faults err.old ≤ E.faults err.new }
{
    match status {
        Status::Done | Status::Found => {}
        Status::Usage => tell_usage(alloc, words, err),
        Status::SheetRefused(fault) => return tell_refusal(refusal(alloc, fault), status, err),
        Status::LogRefused(fault) => return tell_refusal(log_refusal(alloc, fault), status, err),
        Status::DocRefused(fault) => return tell_refusal(doc_refusal(alloc, fault), status, err),
        Status::NoItem(number) => return tell_refusal(item_refusal(alloc, number), status, err),
        Status::NoSplit(number) => return tell_refusal(split_refusal(alloc, number), status, err),
        Status::SecondRefused(fault) => {
            return tell_refusal(second_refusal(alloc, fault), status, err);
        }
        Status::ReadFault => tell_text(b"read fault\n", err),
        Status::WriteFault => tell_write_fault(err),
        Status::NoMemory => return tell_no_memory(err),
    }
    status
}

/// Writes this line, why the input was refused at a place, where there was memory for it. The answer is the status of
/// that, or that there was no memory.
fn tell_placed<E: Sink>(
    line: Result<String, AllocError>,
    status: Status,
    place: Place,
    err: &mut E,
) -> Status
    requires fits { (bytes : List ℕ) → E.fits err.old bytes }
    requires message { IfOk line (λ text. IsPlacedMessage (Some place) status (string_bytes text)) }
    ensures is { (result ≡ status) ⊎ (result ≡ Status.NoMemory) }
    ensures told { TellsAt (Some place) result (change_of E.written E.faults err.old err.new) }
    ensures later { E.faults err.old ≤ E.faults err.new }
{
    match line {
        Ok(line) => {
            tell_text(line.as_bytes(), err);
            status
        }
        Err(AllocError) => tell_no_memory(err),
    }
}

/// Writes the status of a run on these words to standard error. If a sheet is refused and a place is given, that comes
/// after the fault, as line and column. The answer is the status, or that there was no memory to write why the input
/// was refused.
pub(crate) fn tell_at<E: Sink>(
    alloc: Global,
    words: &Vec<String>,
    status: Status,
    place: Option<Place>,
    err: &mut E,
) -> Status
    requires { (bytes : List ℕ) → E.fits err.old bytes }
    ensures same { (result ≡ status) ⊎ (IsRefusal status × (result ≡ Status.NoMemory)) }
    ensures told { TellsAt place result (change_of E.written E.faults err.old err.new) }
    ensures later { E.faults err.old ≤ E.faults err.new }
{
    match (status, place) {
        (Status::SheetRefused(fault), Some(place)) => {
            tell_placed(placed_refusal(alloc, fault, place), status, place, err)
        }
        (Status::SecondRefused(fault), Some(place)) => {
            tell_placed(placed_second(alloc, fault, place), status, place, err)
        }
        _ => tell(alloc, words, status, err),
    }
}

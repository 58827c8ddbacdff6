//! Commands that read all of their input, make a text of it and perhaps a report, and write these.

ghost use Rattle.std.specs.Prelude.{◌≡◌, ◌≢◌, ◌+◌, ◌-◌, ◌^◌, ◌<◌, ◌≤◌, ℕ, List, Option, None, length};
ghost use Rattle.cssmin_run.specs.Change.{change_of, TakesAtMost};
ghost use Rattle.cssmin_run.specs.Status.{IsRefusal};
ghost use Rattle.cssmin_run.specs.Tasks.{Does, Finds, IsAnswered, Reads, says_more, with_found};
ghost use Rattle.line_places.specs.declared.place.Place.{Place};
ghost use Rattle.cssmin_run.specs.declared.status.Status.{Status};
ghost use Rattle.overlap.specs.PairsParts.{PairsParts};

use crate::status::Status;
use crate::telling::tell_at;
use crate::writing::write_text;
use css_io::{ReadError, Sink, Source, read_all};
use line_places::Place;
use overlap::Pairs;
use std::alloc::Global;

/// What is made of an input.
#[derive(Drop)]
pub(crate) struct Answer {
    /// The text that is to be written.
    pub(crate) text: Vec<u8>,
    /// The report for standard error, which may be empty.
    pub(crate) report: Vec<u8>,
    /// The answers for pairs of selectors that were asked for, if the command asks for any.
    pub(crate) held: Option<Pairs>,
}

/// Why an input is not answered.
#[derive(Clone, Copy)]
pub(crate) struct Refusal {
    /// The status that says so.
    pub(crate) status: Status,
    /// Where in the input the fault is, if that is told.
    pub(crate) place: Option<Place>,
}

/// What a command makes of its input.
pub(crate) trait Task {
    // The most bytes that an input may have.
    ghost most: { Self → ℕ };

    // The text and the report that are made of the bytes that were read, and the answers that are held then.
    ghost makes: { Self → List ℕ → List ℕ → List ℕ → Option PairsParts → Type 0 };

    // Which bytes are refused, by the status that says so.
    ghost refuses: { Self → Status → List ℕ → Type 0 };

    // The place in the bytes that were read that a refusal tells, if it tells one.
    ghost told_place: { Self → Status → List ℕ → Option Place };

    /// The most bytes that an input may have.
    fn limit(&self) -> u32
        ensures is { result ≡ most self.now }
        ensures below { result < 2 ^ 32 - 1 };

    /// How an input of more bytes is refused.
    fn too_long(&self) -> Status
        ensures refusal { IsRefusal result }
        ensures cause { (read : List ℕ) → most self.now < length read
            → refuses self.now result read }
        ensures nowhere { (read : List ℕ) → told_place self.now result read ≡ None };

    /// What is made of an input; otherwise the status, that it is refused or that memory was short.
    fn answer(&self, alloc: Global, bytes: &[u8]) -> Result<Answer, Status>
        ensures { IsAnswered (makes self.now) (refuses self.now) bytes.now result };

    /// The place in an input that its refusal tells, if it tells one.
    fn place(&self, status: Status, bytes: &[u8]) -> Option<Place>
        ensures { result ≡ told_place self.now status bytes.now };
}

/// A refusal that tells no place.
fn placeless(status: Status) -> Refusal
    ensures status { result.status ≡ status }
    ensures place { result.place ≡ None }
{
    Refusal {
        status,
        place: None,
    }
}

/// Reads an input to its end, and makes what a command makes of it.
#[tactic(auto, using(crate::proofs::Reading::reads_answered, crate::proofs::Reading::reads_refused, crate::proofs::Reading::reads_too_long))]
fn read_answer<T: Task, S: Source>(
    alloc: Global,
    task: &T,
    input: &mut S,
) -> Result<Answer, Refusal>
    ensures read { Reads (T.most task.now) (T.told_place task.now) (T.makes task.now) (T.refuses task.now) result
        (change_of S.left S.faults input.old input.new) }
    ensures bounded { TakesAtMost (T.most task.now + 1)
        (change_of S.left S.faults input.old input.new) }
    ensures later { S.faults input.old ≤ S.faults input.new }
{
    let bytes = match read_all(alloc, input, task.limit()) {
        Ok(bytes) => bytes,
        Err(ReadError::ReadFault) => return Err(placeless(Status::ReadFault)),
        Err(ReadError::TooLong) => return Err(placeless(task.too_long())),
        Err(ReadError::NoMemory) => return Err(placeless(Status::NoMemory)),
    };
    match task.answer(alloc, bytes.as_slice()) {
        Ok(answer) => Ok(answer),
        Err(status) => {
            let place = task.place(status, bytes.as_slice());
            Err(Refusal { status, place })
        }
    }
}

/// Reads `input` to its end, writes to `out` what the command makes of it, and to `err` its report, or why it is
/// refused, with the place that the command tells of that. Nothing is written before the whole text and the report are
/// made. `held` is afterwards the answers that were asked for, and none where nothing was written. The status is never
/// `Usage`.
#[tactic(auto, using(crate::proofs::Outcomes::stopped, crate::proofs::Outcomes::wrote))]
pub(crate) fn perform<T: Task, S: Source, O: Sink, E: Sink>(
    alloc: Global,
    words: &Vec<String>,
    task: &T,
    input: &mut S,
    out: &mut O,
    err: &mut E,
    held: &mut Option<Pairs>,
) -> Status
    requires out_fits { (bytes : List ℕ) → O.fits out.old bytes }
    requires err_fits { (bytes : List ℕ) → E.fits err.old bytes }
    requires unheld { held.old ≡ None }
    ensures outcome { Does (T.most task.now) (T.told_place task.now) (T.makes task.now) (T.refuses task.now) result
        (change_of S.left S.faults input.old input.new)
        (change_of O.written O.faults out.old out.new)
        (change_of E.written E.faults err.old err.new) held.new }
    ensures untouched { result ≢ Status.Done → result ≢ Status.WriteFault → out.new ≡ out.old }
    ensures bounded { TakesAtMost (T.most task.now + 1)
        (change_of S.left S.faults input.old input.new) }
    ensures input_later { S.faults input.old ≤ S.faults input.new }
    ensures out_later { O.faults out.old ≤ O.faults out.new }
    ensures err_later { E.faults err.old ≤ E.faults err.new }
{
    let answer = match read_answer(alloc, task, input) {
        Ok(answer) => answer,
        Err(refusal) => return tell_at(alloc, words, refusal.status, refusal.place, err),
    };
    *held = answer.held;
    write_text(answer.text.as_slice(), answer.report.as_slice(), out, err)
}

/// Whether a text says more than that nothing was found.
fn is_more(nothing: &[u8], text: &[u8]) -> bool
    ensures { result ≡ says_more nothing.now text.now }
{
    text != nothing
}

/// The status of a command, by whether it found something if it is done.
fn found_status(found: bool, status: Status) -> Status
    ensures { result ≡ with_found found status }
{
    match (found, status) {
        (true, Status::Done) => Status::Found,
        _ => status,
    }
}

/// Does what [`perform`] does, for a command whose text tells what it found. Where the text is written, the status is
/// `Done` if it is the one that says that nothing was found, and `Found` otherwise.
#[tactic(auto, using(crate::proofs::Findings::stopped_finding, crate::proofs::Findings::found_wrote, crate::proofs::Findings::found_untouched))]
pub(crate) fn perform_finding<T: Task, S: Source, O: Sink, E: Sink>(
    alloc: Global,
    words: &Vec<String>,
    task: &T,
    nothing: &[u8],
    input: &mut S,
    out: &mut O,
    err: &mut E,
    held: &mut Option<Pairs>,
) -> Status
    requires out_fits { (bytes : List ℕ) → O.fits out.old bytes }
    requires err_fits { (bytes : List ℕ) → E.fits err.old bytes }
    requires unheld { held.old ≡ None }
    ensures outcome { Finds nothing.now (T.most task.now) (T.told_place task.now) (T.makes task.now) (T.refuses task.now) result
        (change_of S.left S.faults input.old input.new)
        (change_of O.written O.faults out.old out.new)
        (change_of E.written E.faults err.old err.new) held.new }
    ensures untouched { result ≢ Status.Done → result ≢ Status.Found → result ≢ Status.WriteFault → out.new ≡ out.old }
    ensures bounded { TakesAtMost (T.most task.now + 1)
        (change_of S.left S.faults input.old input.new) }
    ensures input_later { S.faults input.old ≤ S.faults input.new }
    ensures out_later { O.faults out.old ≤ O.faults out.new }
    ensures err_later { E.faults err.old ≤ E.faults err.new }
{
    let answer = match read_answer(alloc, task, input) {
        Ok(answer) => answer,
        Err(refusal) => return tell_at(alloc, words, refusal.status, refusal.place, err),
    };
    let found = is_more(nothing, answer.text.as_slice());
    *held = answer.held;
    let status = write_text(answer.text.as_slice(), answer.report.as_slice(), out, err);
    found_status(found, status)
}

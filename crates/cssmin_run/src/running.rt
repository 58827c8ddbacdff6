//! The program's top call.

ghost use Rattle.std.specs.Prelude.{◌≡◌, ◌≢◌, ◌⊎◌, ◌≤◌, ◌+◌, ℕ, List, Some, None, false, map, string_bytes, IfOk, IsErr};
ghost use Rattle.command_words.specs.Forms.{form_of};
ghost use Rattle.command_words.specs.Views.{form_if_some};
ghost use Rattle.cssmin_run.specs.Change.{change_of, TakesAtMost};
ghost use Rattle.cssmin_run.specs.Run.{most_taken, needs_input, Answers, Ran};
ghost use Rattle.cssmin_run.specs.Telling.{Tells};

use crate::commands::about::{help, version};
use crate::commands::blockers::Blockers;
use crate::commands::check::Check;
use crate::commands::cmp::cmp;
use crate::commands::dead::Dead;
use crate::commands::diff::Diff;
use crate::commands::inspect::Inspect;
use crate::commands::lint::Lint;
use crate::commands::listing::Listing;
use crate::commands::min::Min;
use crate::commands::same::Same;
use crate::commands::style::Style;
use crate::commands::trial::trial;
use crate::commands::why::Why;
use crate::status::Status;
use crate::tasks::{perform, perform_finding};
use crate::telling::{tell, tell_no_memory};
use command_words::{Command, command_of};
use css_io::{Sink, Source};
use overlap::Pairs;
use std::alloc::{AllocError, Global};

/// What a run does, by the command of the words. Nothing is `held` before.
fn obey<S: Source, O: Sink, E: Sink>(
    alloc: Global,
    words: &Vec<String>,
    command: Option<Command<'_>>,
    input: &mut S,
    out: &mut O,
    err: &mut E,
    held: &mut Option<Pairs>,
) -> Status
    requires out_fits { (bytes : List ℕ) → O.fits out.old bytes }
    requires err_fits { (bytes : List ℕ) → E.fits err.old bytes }
    requires unheld { held.old ≡ None }
    ensures answers { Answers (form_if_some command.entry) result
        (change_of S.left S.faults input.old input.new)
        (change_of O.written O.faults out.old out.new)
        (change_of E.written E.faults err.old err.new) held.new }
    ensures untouched { result ≢ Status.Done → result ≢ Status.Found → result ≢ Status.WriteFault → out.new ≡ out.old }
    ensures bounded { TakesAtMost (most_taken (form_if_some command.entry))
        (change_of S.left S.faults input.old input.new) }
    ensures unread { needs_input (form_if_some command.entry) ≡ false → input.new ≡ input.old }
    ensures input_later { S.faults input.old ≤ S.faults input.new }
    ensures out_later { O.faults out.old ≤ O.faults out.new }
    ensures err_later { E.faults err.old ≤ E.faults err.new }
{
    match command {
        Some(
            Command::Min {
                budget,
                work,
                report,
            },
        ) => {
            let task = Min {
                work,
                budget,
                asked: report,
            };
            perform(alloc, words, &task, input, out, err, held)
        }
        Some(Command::Dead { budget }) => {
            perform(alloc, words, &Dead { budget }, input, out, err, held)
        }
        Some(Command::Style) => perform(alloc, words, &Style, input, out, err, held),
        Some(
            Command::Cmp {
                left,
                right,
                budget,
                log,
            },
        ) => cmp(alloc, left, right, budget, log, out, err, held),
        Some(Command::Check) => perform(alloc, words, &Check, input, out, err, held),
        Some(Command::Why { from, to, budget }) => {
            perform(
                alloc,
                words,
                &Why { from, to, budget },
                input,
                out,
                err,
                held,
            )
        }
        Some(Command::Same { split, budget }) => {
            perform(alloc, words, &Same { split, budget }, input, out, err, held)
        }
        Some(
            Command::Diff {
                split,
                budget,
                limit,
            },
        ) => {
            let task = Diff {
                split,
                budget,
                limit,
            };
            perform_finding(alloc, words, &task, b"same\n", input, out, err, held)
        }
        Some(Command::Blockers { budget }) => {
            perform(alloc, words, &Blockers { budget }, input, out, err, held)
        }
        Some(Command::Listing) => perform(alloc, words, &Listing, input, out, err, held),
        Some(Command::Lint { budget }) => {
            perform_finding(alloc, words, &Lint { budget }, b"", input, out, err, held)
        }
        Some(Command::Inspect) => perform(alloc, words, &Inspect, input, out, err, held),
        Some(Command::Trial { rules }) => trial(alloc, rules.number(), out, err, held),
        Some(Command::Help(about)) => help(alloc, about, out, err),
        Some(Command::Version) => version(alloc, out, err),
        None => tell(alloc, words, Status::Usage, err),
    }
}

/// Runs the program on the words after its name, and answers its status.
///
/// - `min` reads a style sheet from `input` to its end, and writes it to `out`, in no more bytes and with the same
///   winners of the cascade in every legal document. If the words bound the work, it may stop while something is left to
///   do. Its report is written to `err`, where it is asked for, after the text.
/// - `cmp LEFT RIGHT` compares two selectors, and writes to `out` whether one element of a legal document can match
///   both.
/// - `dead` reads a sheet, and writes to `out` which of its selectors match nothing in any legal document.
/// - `style` reads a document and a sheet, and writes to `out` which declarations win.
/// - `why FROM TO` reads a sheet, and writes to `out` what hinders the move of one rule to another.
/// - `same N` reads two sheets, the first one of N bytes, and writes to `out` what is found in them.
/// - `diff N` reads two sheets as `same` does, and writes to `out` all that is found in them. If it refuses one of them, it
///   writes to `err` the line and the column of the fault in it too.
/// - `blockers` reads a sheet, and writes to `out` which items stop the merges that are left in it. It refuses a sheet as
///   `list` does.
/// - `list` reads a sheet, and writes to `out` where each of its items is. If it refuses the sheet, it writes to `err` the
///   line and the column of the fault too.
/// - `lint` reads a sheet, and writes to `out` which selectors match nothing, and which declarations each selector of
///   their rule has again later. It refuses a sheet as `list` does.
/// - `inspect` reads a document and a sheet, and writes to `out` which declarations the rules apply to the marked
///   element, in the order of the cascade. If it refuses the sheet, it writes to `err` the line and the column of the
///   fault in it too.
/// - `check` reads a log, and writes to `out` whether it refutes its formula.
/// - `trial N` merges a made sheet of N rules, and writes to `out` how many items and bytes it had and has, and how
///   many steps were taken.
/// - Words that ask for help or the version have it written to `out`.
///
/// What else happened is written to `err`.
///
/// - `Found` comes exactly where the text of `lint` was written and is not empty, and where that of `diff` was written and is
///   not `same`.
/// - `Usage` comes exactly where the words have no form.
/// - `SheetRefused` comes where a sheet has a fault, or has more than 1,048,576 bytes, of which one more is read; for
///   `same` and `diff` the limit is 2,097,152 bytes for both.
/// - `SecondRefused` comes where the second sheet has a fault.
/// - `DocRefused` comes where a document has a fault.
/// - `LogRefused` comes where a log has a fault, or has more than 134,217,728 bytes.
/// - `NoItem` comes exactly where the sheet has no item of one of the numbers of `why`.
/// - `NoSplit` comes exactly where there are fewer bytes than the number of `same` or `diff`.
/// - `ReadFault` comes only where a read failed: the count of faults rose, or has its last value.
/// - `WriteFault` comes only if a write failed: a count of faults rose, or has its last value. A front of the text is then
///   on `out`, or all of it and a front of the report on `err`.
/// - `NoMemory` comes where memory is short, before the first byte is written.
///
/// No clause says when memory is short. A body that always answered `NoMemory` for words with a form would meet all
/// clauses; tests exclude it. The laws say what follows for each status.
///
/// `held` is a place for the answers for pairs of selectors. What it holds is dropped. Afterwards it holds the answers
/// that the run asked for, with its budget, where it asked and the status is `Done`, `Found` or `WriteFault`; otherwise
/// none.
#[tactic(auto, using(crate::proofs::Forms::answered))]
pub fn run<S: Source, O: Sink, E: Sink>(
    alloc: Global,
    words: &Vec<String>,
    input: &mut S,
    out: &mut O,
    err: &mut E,
    held: &mut Option<Pairs>,
) -> Status
    // Every text may be written.
    requires out_fits { (bytes : List ℕ) → O.fits out.old bytes }
    requires err_fits { (bytes : List ℕ) → E.fits err.old bytes }

    // Exactly words without a form are refused; otherwise what they ask for was done, and its outcome was written.
    ensures ran { Ran (map string_bytes words.now.items) result
        (change_of S.left S.faults input.old input.new)
        (change_of O.written O.faults out.old out.new)
        (change_of E.written E.faults err.old err.new) held.new }

    // What stays, and how much was read.
    ensures untouched { result ≢ Status.Done → result ≢ Status.Found → result ≢ Status.WriteFault → out.new ≡ out.old }
    ensures unread { needs_input (form_of (map string_bytes words.now.items)) ≡ false
        → input.new ≡ input.old }
    ensures bounded { TakesAtMost (most_taken (form_of (map string_bytes words.now.items)))
        (change_of S.left S.faults input.old input.new) }

    // No count of faults falls.
    ensures later { (S.faults input.old ≤ S.faults input.new) × (O.faults out.old ≤ O.faults out.new)
        × (E.faults err.old ≤ E.faults err.new) }
{
    *held = None;
    obey(alloc, words, command_of(words), input, out, err, held)
}

/// Runs the program on its words, where there was room for them. Otherwise it writes to `err` that there was none, and
/// answers `NoMemory`.
pub fn run_words<S: Source, O: Sink, E: Sink>(
    alloc: Global,
    words: Result<Vec<String>, AllocError>,
    input: &mut S,
    out: &mut O,
    err: &mut E,
    held: &mut Option<Pairs>,
) -> Status
    requires out_fits { (bytes : List ℕ) → O.fits out.old bytes }
    requires err_fits { (bytes : List ℕ) → E.fits err.old bytes }
    ensures ran { IfOk words (λ words. Ran (map string_bytes words.items) result
        (change_of S.left S.faults input.old input.new)
        (change_of O.written O.faults out.old out.new)
        (change_of E.written E.faults err.old err.new) held.new) }
    ensures no_room { IsErr words → result ≡ Status.NoMemory }
    ensures unread { IsErr words → input.new ≡ input.old }
    ensures unheld { IsErr words → held.new ≡ None }
    ensures told { IsErr words → Tells result (change_of E.written E.faults err.old err.new) }
    ensures untouched { result ≢ Status.Done → result ≢ Status.Found → result ≢ Status.WriteFault → out.new ≡ out.old }
{
    match words {
        Ok(words) => run(alloc, &words, input, out, err, held),
        Err(AllocError) => {
            *held = None;
            tell_no_memory(err)
        }
    }
}

//! What the program writes of itself: how it is used, and its version.

ghost use Rattle.std.specs.Prelude.{◌≡◌, ◌≢◌, ◌≤◌, ℕ, List};
ghost use Rattle.command_texts.specs.Texts.{IsHelpOn, version_text};
ghost use Rattle.cssmin_run.specs.Change.{change_of};
ghost use Rattle.cssmin_run.specs.Writing.{WritesSome};

use crate::status::Status;
use crate::telling::tell_no_memory;
use crate::writing::write_text;
use command_texts::{help_text, version_text};
use command_words::Topic;
use css_io::Sink;
use std::alloc::{AllocError, Global};

#[tactic(auto, using(crate::proofs::Wrote::wrote_some))]
/// Writes to `out` how the program, or a command of it, is used.
pub(crate) fn help<O: Sink, E: Sink>(
    alloc: Global,
    about: Topic,
    out: &mut O,
    err: &mut E,
) -> Status
    requires out_fits { (bytes : List ℕ) → O.fits out.old bytes }
    requires err_fits { (bytes : List ℕ) → E.fits err.old bytes }
    ensures outcome { WritesSome (IsHelpOn about) result
        (change_of O.written O.faults out.old out.new)
        (change_of E.written E.faults err.old err.new) }
    ensures untouched { result ≢ Status.Done → result ≢ Status.WriteFault → out.new ≡ out.old }
    ensures out_later { O.faults out.old ≤ O.faults out.new }
    ensures err_later { E.faults err.old ≤ E.faults err.new }
{
    match help_text(alloc, about) {
        Ok(text) => write_text(text.as_slice(), &[], out, err),
        Err(AllocError) => {
            tell_no_memory(err);
            Status::NoMemory
        }
    }
}

#[tactic(auto, using(crate::proofs::Wrote::wrote_some))]
/// Writes the version to `out`.
pub(crate) fn version<O: Sink, E: Sink>(alloc: Global, out: &mut O, err: &mut E) -> Status
    requires out_fits { (bytes : List ℕ) → O.fits out.old bytes }
    requires err_fits { (bytes : List ℕ) → E.fits err.old bytes }
    ensures outcome { WritesSome (λ text. text ≡ version_text) result
        (change_of O.written O.faults out.old out.new)
        (change_of E.written E.faults err.old err.new) }
    ensures untouched { result ≢ Status.Done → result ≢ Status.WriteFault → out.new ≡ out.old }
    ensures out_later { O.faults out.old ≤ O.faults out.new }
    ensures err_later { E.faults err.old ≤ E.faults err.new }
{
    match version_text(alloc) {
        Ok(text) => write_text(text.as_slice(), &[], out, err),
        Err(AllocError) => {
            tell_no_memory(err);
            Status::NoMemory
        }
    }
}

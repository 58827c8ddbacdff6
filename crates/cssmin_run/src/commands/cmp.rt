//! The command `cmp`: two selectors compared, and the text of the answer on the output.

ghost use Rattle.std.specs.Prelude.{◌≡◌, ◌≢◌, ◌≤◌, ℕ, List, [], Some, None, IfOk};
ghost use Rattle.compare_text.specs.ComparedTexts.{selector_or_reason, AsksFor};
ghost use Rattle.cssmin_run.specs.Change.{change_of};
ghost use Rattle.cssmin_run.specs.Commands.Cmp.{unasked, CmpDoes, IsAnswer, IsTextOf};

use crate::status::Status;
use crate::telling::tell_no_memory;
use crate::writing::write_text;
use cnf::NO_LIMIT;
use compare_text::{compare_texts, compare_texts_with_log};
use css_io::Sink;
use overlap::Pairs;
use std::alloc::{AllocError, Global};

/// No answers yet, with the budget of the words, or with none.
pub(crate) fn unasked(alloc: Global, budget: Option<u32>) -> Pairs
    ensures { result ≡ unasked budget }
{
    match budget {
        Some(budget) => Pairs::new(alloc, budget),
        None => Pairs::new(alloc, NO_LIMIT),
    }
}

/// The text of the answer for two texts, with a log or without one. The answer is asked for.
fn text_of(
    alloc: Global,
    pairs: &mut Pairs,
    left: &[u8],
    right: &[u8],
    log: bool,
) -> Result<Vec<u8>, AllocError>
    requires { pairs.old.answers ≡ [] }
    ensures asks { AsksFor (selector_or_reason left.now) (selector_or_reason right.now) pairs.old pairs.new }
    ensures text { IfOk result (λ text. IsTextOf log
        (selector_or_reason left.now) (selector_or_reason right.now) pairs.new text.items) }
{
    if log {
        compare_texts_with_log(alloc, pairs, left, right)
    } else {
        compare_texts(alloc, pairs, left, right)
    }
}

/// The text of the answer for two texts, with the answers that it was asked of.
fn answer(
    alloc: Global,
    left: &str,
    right: &str,
    budget: Option<u32>,
    log: bool,
) -> Result<(Pairs, Vec<u8>), AllocError>
    ensures { IfOk result (λ r. IsAnswer left.now right.now budget log (Some r.0) r.1.items) }
{
    let mut pairs = unasked(alloc, budget);
    let text = text_of(alloc, &mut pairs, left.as_bytes(), right.as_bytes(), log)?;
    Ok((pairs, text))
}

#[tactic(auto, using(crate::proofs::Wrote::wrote_answer))]
/// Compares two texts as selectors, and writes the text of the answer to `out`. Nothing is written before the whole
/// text is made. `held` is afterwards the answers that were asked for, and none where memory was short.
pub(crate) fn cmp<O: Sink, E: Sink>(
    alloc: Global,
    left: &str,
    right: &str,
    budget: Option<u32>,
    log: bool,
    out: &mut O,
    err: &mut E,
    held: &mut Option<Pairs>,
) -> Status
    requires out_fits { (bytes : List ℕ) → O.fits out.old bytes }
    requires err_fits { (bytes : List ℕ) → E.fits err.old bytes }
    ensures outcome { CmpDoes left.now right.now budget log result
        (change_of O.written O.faults out.old out.new)
        (change_of E.written E.faults err.old err.new) held.new }
    ensures untouched { result ≢ Status.Done → result ≢ Status.WriteFault → out.new ≡ out.old }
    ensures out_later { O.faults out.old ≤ O.faults out.new }
    ensures err_later { E.faults err.old ≤ E.faults err.new }
{
    match answer(alloc, left, right, budget, log) {
        Ok((pairs, text)) => {
            *held = Some(pairs);
            write_text(text.as_slice(), &[], out, err)
        }
        Err(AllocError) => {
            *held = None;
            tell_no_memory(err);
            Status::NoMemory
        }
    }
}

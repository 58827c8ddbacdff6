//! Two texts compared as selectors, with the log of a refutation.

ghost use Rattle.std.specs.Prelude.{◌≡◌, [], IfOk, Ok};
ghost use Rattle.clause_encode.specs.Fits.{IsSmallFormula};
ghost use Rattle.cnf.specs.Propagation.{IsLedger};
ghost use Rattle.css_model.specs.Selectors.Profile.{IsInProfile};
ghost use Rattle.compare_text.specs.ComparedTexts.{selector_or_reason, AsksFor};
ghost use Rattle.compare_text.specs.LoggedTexts.{IsComparedWithLog, IsTextWithLog};
ghost use Rattle.overlap.specs.Remembered.{Asks, IsHeldWithLog};
ghost use Rattle.rup_check.specs.Reading.{IsLogText};

use crate::answered::{print_held, print_outside};
use crate::reading::read;
use cnf::{Formula, Ledger};
use css_model::Selector;
use overlap::Pairs;
use rup_check::{ledgers_are_logs, print_log};
use sel_parse::SelError;
use std::alloc::{AllocError, Global};

/// The text of a log: of a formula and a ledger of it.
#[tactic(auto, using(crate::proofs::HeldLogs::ledger_is_log))]
fn print_refutation(
    alloc: Global,
    formula: &Formula,
    ledger: &Ledger,
) -> Result<Vec<u8>, AllocError>
    requires small { IsSmallFormula formula.now }
    requires logged { IsLedger formula.now ledger.now }
    ensures { IfOk result (λ text. IsLogText text.items formula.now ledger.now) }
{
    ledgers_are_logs();
    let text = print_log(alloc, formula, ledger)?;
    Ok(text)
}

/// The lines of the answer that is held for two selectors, or the log in its place.
#[tactic(auto, using(crate::proofs::HeldLogs::held_with_log, crate::proofs::HeldLogs::log_is_small, crate::proofs::HeldLogs::log_is_ledger, crate::proofs::HeldLogs::text_with_log, crate::proofs::HeldLogs::text_without_log))]
fn print_held_with_log(
    alloc: Global,
    pairs: &Pairs,
    x: &Selector,
    y: &Selector,
    log: &Option<(Formula, Ledger)>,
) -> Result<Vec<u8>, AllocError>
    requires { IsHeldWithLog pairs.now x.now y.now log.now }
    ensures { IfOk result (λ text. IsTextWithLog x.now y.now pairs.now text.items) }
{
    pairs.are_true();
    match log {
        Some((formula, ledger)) => print_refutation(alloc, formula, ledger),
        None => print_held(alloc, pairs, x, y),
    }
}

/// The lines of the answer for two selectors, or its log. The answer is asked for.
#[tactic(auto, using(crate::proofs::HeldLogs::none_known))]
fn print_asked_with_log(
    alloc: Global,
    pairs: &mut Pairs,
    x: &Selector,
    y: &Selector,
) -> Result<Vec<u8>, AllocError>
    requires first { IsInProfile x.now }
    requires second { IsInProfile y.now }
    requires none_held { pairs.old.answers ≡ [] }
    ensures asks { Asks pairs.old pairs.new x.now y.now }
    ensures text { IfOk result (λ text. IsTextWithLog x.now y.now pairs.new text.items) }
{
    let log = pairs.ask_with_log(x, y)?;
    print_held_with_log(alloc, pairs, x, y, &log)
}

/// The answer for two texts as [`compare_texts`](crate::compare_texts) gives it, or a log that shows it, over pairs
/// that hold no answer yet. A log takes the place of `disjoint` where both selectors have the same pseudo-element or
/// none, and one has a combinator. It is the formula of the two and clauses that refute it, which `read_log` of
/// `rup_check` reads and `check_log` follows. `AllocError` where memory runs out.
#[tactic(auto, using(crate::proofs::Asked::asks_nothing))]
pub fn compare_texts_with_log(
    alloc: Global,
    pairs: &mut Pairs,
    left: &[u8],
    right: &[u8],
) -> Result<Vec<u8>, AllocError>
    requires { pairs.old.answers ≡ [] }
    ensures asks { AsksFor (selector_or_reason left.now) (selector_or_reason right.now) pairs.old pairs.new }
    ensures text { IfOk result (λ text.
        IsComparedWithLog (selector_or_reason left.now) (selector_or_reason right.now) pairs.new text.items) }
{
    let x = match read(alloc, left) {
        Ok(x) => x,
        Err(SelError::Outside(reason)) => return print_outside(alloc, reason),
        Err(SelError::NoMemory) => return Err(AllocError),
    };
    let y = match read(alloc, right) {
        Ok(y) => y,
        Err(SelError::Outside(reason)) => return print_outside(alloc, reason),
        Err(SelError::NoMemory) => return Err(AllocError),
    };
    print_asked_with_log(alloc, pairs, &x, &y)
}

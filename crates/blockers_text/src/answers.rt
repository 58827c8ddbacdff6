//! Whether two selectors are answered otherwise than apart.

ghost use Rattle.std.specs.Prelude.{◌≡◌, List, IfOk, not};
ghost use Rattle.css_model.specs.Selectors.Profile.{IsInProfile};
ghost use Rattle.overlap.specs.Remembered.{IsHeld};
ghost use Rattle.sheet_order.specs.Laws.{is_apart};
ghost use Rattle.step_laws.specs.Free.{Answered};
ghost use Rattle.blockers_text.specs.Later.{Grows, IsLater, TellsOther, seen};

use css_model::Selector;
use overlap::{Answer, Pairs};
use std::alloc::AllocError;

/// Whether an answer is anything but that two selectors are apart.
fn says_other(answer: &Answer) -> bool
    ensures { result ≡ not (is_apart answer.now) }
{
    match answer {
        Answer::Apart => false,
        Answer::Meet(_) | Answer::Outside(_, _) | Answer::Spent(_) => true,
    }
}

/// Whether the answer that is held for two selectors is.
#[tactic(auto, using(sheet_order::proofs::ForCallers::not_unknown))]
fn known_other(pairs: &Pairs, x: &Selector, y: &Selector) -> bool
    requires { IsHeld pairs.now.answers x.now y.now }
    ensures { (later : List Answered) → IsLater (seen pairs.now) later → TellsOther later x.now y.now result }
{
    match pairs.known(x, y) {
        Some(answer) => says_other(answer),
        None => unreachable!(),
    }
}

/// Whether the answer for two selectors is. It is asked for.
#[tactic(auto, using(crate::proofs::Answered::asks_grow))]
pub(crate) fn asked_other(pairs: &mut Pairs, x: &Selector, y: &Selector) -> Result<bool, AllocError>
    requires first { IsInProfile x.now }
    requires second { IsInProfile y.now }
    ensures grows { Grows pairs.old pairs.new }
    ensures tells { IfOk result (λ other. (later : List Answered) → IsLater (seen pairs.new) later → TellsOther later x.now y.now other) }
{
    pairs.settle(x, y)?;
    Ok(known_other(pairs, x, y))
}

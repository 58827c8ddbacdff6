//! What is found in a couple that is turned, by what is answered.

ghost use Rattle.std.specs.Prelude.{◌≡◌, IfOk};
ghost use Rattle.css_model.specs.Selectors.Profile.{IsInProfile};
ghost use Rattle.overlap.specs.Remembered.{IsHeld};
ghost use Rattle.sheet_members.specs.Ready.{IsReady};
ghost use Rattle.sheet_order.specs.Allowing.{Stays};
ghost use Rattle.turned_members.specs.Telling as spec;

use crate::verdict::Verdict;
use css_model::Selector;
use overlap::{Answer, Pairs};
use sheet_members::{Common, Part};
use std::alloc::AllocError;

/// What an answer says of two pairs.
fn verdict_by(answer: &Answer) -> Result<Option<Verdict>, AllocError>
    ensures { IfOk result (λ found. spec.verdict_by answer.now ≡ found) }
{
    match answer {
        Answer::Apart => Ok(None),
        Answer::Meet(example) => Ok(Some(Verdict::Meet(example.copy()?))),
        Answer::Outside(reason, _) => Ok(Some(Verdict::Outside(*reason))),
        Answer::Spent(_) => Ok(Some(Verdict::Spent)),
    }
}

/// What is found by the answer that is held for two selectors.
#[tactic(auto, using(sheet_order::proofs::ForCallers::not_unknown))]
fn held_verdict(pairs: &Pairs, x: &Selector, y: &Selector) -> Result<Option<Verdict>, AllocError>
    requires { IsHeld pairs.now.answers x.now y.now }
    ensures { IfOk result (λ found. spec.IsAnswer pairs.now.answers x.now y.now found) }
{
    match pairs.known(x, y) {
        Some(answer) => verdict_by(answer),
        None => unreachable!(),
    }
}

/// What is found by the answer for two selectors. The answer is asked for.
#[tactic(auto, using(sheet_order::proofs::ForCallers::asked_stays))]
fn asked_verdict(
    pairs: &mut Pairs,
    x: &Selector,
    y: &Selector,
) -> Result<Option<Verdict>, AllocError>
    requires first { IsInProfile x.now }
    requires second { IsInProfile y.now }
    ensures stays { Stays pairs.old pairs.new }
    ensures answer { IfOk result (λ found. spec.IsAnswer pairs.new.answers x.now y.now found) }
{
    pairs.settle(x, y)?;
    held_verdict(pairs, x, y)
}

/// What is found in two common members that are turned.
#[tactic(auto, using(sheet_order::proofs::ForCallers::stays_itself))]
pub(crate) fn judge(
    pairs: &mut Pairs,
    c: &Common<'_>,
    d: &Common<'_>,
) -> Result<Option<Verdict>, AllocError>
    requires first { IsReady c.now.mine.occurrence }
    requires second { IsReady d.now.mine.occurrence }
    ensures stays { Stays pairs.old pairs.new }
    ensures judged { IfOk result (λ found. spec.AreJudged pairs.new.answers c.now.mine.occurrence.part d.now.mine.occurrence.part found) }
{
    let one = c.here();
    let two = d.here();
    match (one.part, two.part) {
        (Part::Pair(s, _), Part::Pair(t, _)) => asked_verdict(pairs, &s.selector, &t.selector),
        _ => Ok(Some(Verdict::Kept)),
    }
}

//! Whether a step of merging may be taken, by answers for pairs of selectors.

ghost use Rattle.std.specs.Prelude.{◌≡◌, IfOk};
ghost use Rattle.std.specs.List.{AllByRecursion};
ghost use Rattle.css_model.specs.Selectors.Profile.{IsInProfile};
ghost use Rattle.order_laws.specs.Edits.{Edit, edited};
ghost use Rattle.order_laws.specs.Reversed as order;
ghost use Rattle.overlap.specs.Remembered.{IsHeld};
ghost use Rattle.step_laws.specs.Steps.{HasStep, IsStep};
ghost use Rattle.sheet_order.specs.Allowing as allowing;
ghost use Rattle.sheet_order.specs.Narrow.{CanBePlanned};
ghost use Rattle.sheet_order.specs.Taking as taking;

use crate::entries::{Counterpart, Reversal};
use crate::places::Moved;
use crate::reversing::reversals;
use css_model::{Selector, Sheet};
use merge_steps::apply;
use order_laws::listed_is_reversed;
use overlap::{Answer, Pairs};
use print_laws::selectors_are_in_the_profile;
use selector_laws::read_selectors_keep_the_limits;
use std::alloc::{AllocError, Global};
use step_laws::{BlockCause, Step, parts_are_few};

/// Whether a step may be taken.
#[derive(Clone, Copy, Debug, PartialEq, Eq, Hash)]
pub enum Allowed {
    /// It may: each entry of what it reverses is a pair whose selectors are answered to be apart.
    Free,
    /// It may not, for the first entry that is not.
    Blocked(BlockCause),
}

/// The pairs that a step moves.
pub fn moved_of(step: &Step) -> Moved
    ensures { result ≡ taking.moved_of step.now }
{
    match *step {
        Step::CutDecl { item, .. } | Step::CutSel { item, .. } => Moved::Rule(item),
        Step::JoinSelUp { lower, .. } | Step::JoinDeclUp { lower, .. } => Moved::Rule(lower),
        Step::JoinSelDown { upper, .. } | Step::JoinDeclDown { upper, .. } => Moved::Rule(upper),
        Step::Share { upper, lower } => Moved::Common { upper, lower },
    }
}

/// The cause in an answer for a moved pair and one of this item, if the answer is not that they are apart.
fn cause_of(answer: &Answer, item: u32) -> Option<BlockCause>
    ensures { result ≡ allowing.cause_by item answer.now }
{
    match answer {
        Answer::Apart => None,
        Answer::Meet(_) => Some(BlockCause::Meet(item)),
        Answer::Outside(reason, _) => Some(BlockCause::Outside(item, *reason)),
        Answer::Spent(_) => Some(BlockCause::Spent(item)),
    }
}

/// The cause by the answer that is held for two selectors.
#[tactic(auto, using(crate::proofs::Held::not_unknown, crate::proofs::Held::judged))]
fn known_cause(pairs: &Pairs, x: &Selector, y: &Selector, item: u32) -> Option<BlockCause>
    requires { IsHeld pairs.now.answers x.now y.now }
    ensures { allowing.JudgesPair pairs.now.answers x.now y.now item result }
{
    match pairs.known(x, y) {
        Some(answer) => cause_of(answer, item),
        None => unreachable!(),
    }
}

/// The cause by the answer for two selectors. The answer is asked for.
#[tactic(auto, using(crate::proofs::Held::asked_stays))]
fn asked_cause(
    pairs: &mut Pairs,
    x: &Selector,
    y: &Selector,
    item: u32,
) -> Result<Option<BlockCause>, AllocError>
    requires first { IsInProfile x.now }
    requires second { IsInProfile y.now }
    ensures stays { allowing.Stays pairs.old pairs.new }
    ensures judges { IfOk result (λ cause. allowing.JudgesPair pairs.new.answers x.now y.now item cause) }
{
    pairs.settle(x, y)?;
    Ok(known_cause(pairs, x, y, item))
}

/// The cause by an entry, if it is not a pair whose selectors are answered to be apart.
#[tactic(auto, using(crate::proofs::Held::stays_itself))]
fn hindrance(pairs: &mut Pairs, entry: &Reversal<'_>) -> Result<Option<BlockCause>, AllocError>
    requires { allowing.IsAskable entry.now }
    ensures stays { allowing.Stays pairs.old pairs.new }
    ensures judges { IfOk result (λ cause. allowing.Judges pairs.new.answers entry.now cause) }
{
    match &entry.other {
        Counterpart::Kept(number) => Ok(Some(BlockCause::Kept(*number as u32))),
        Counterpart::Pair(q) => {
            asked_cause(pairs, entry.moved.selector, q.selector, q.item as u32)
        }
    }
}

/// Whether all entries are pairs whose selectors are answered to be apart; otherwise the cause by the first that is
/// not. All answers that were held stay. `AllocError` where memory runs out; they stay then too.
#[tactic(auto, using(crate::proofs::Held::stays_itself))]
pub fn judged(pairs: &mut Pairs, entries: &[Reversal<'_>]) -> Result<Allowed, AllocError>
    requires { AllByRecursion allowing.IsAskable entries.now }
    ensures stays { allowing.Stays pairs.old pairs.new }
    ensures allowed { IfOk result (λ allowed. allowing.IsAllowed pairs.new.answers entries.now allowed) }
{
    for entry in entries {
        if let Some(cause) = hindrance(pairs, entry)? {
            return Ok(Allowed::Blocked(cause));
        }
    }
    Ok(Allowed::Free)
}

/// Whether a step of a sheet may be taken, by what is answered for pairs of selectors. It asks for the answers that it
/// has to know, from the nearest entry on, up to the first that blocks; the moved pair's selector comes first. All
/// answers that were held stay. `AllocError` where memory runs out; they stay then too.
#[tactic(auto, using(crate::proofs::Limited::planned_limited, crate::proofs::Askable::all_askable, crate::proofs::Askable::allowed_is, crate::proofs::Held::stays_itself))]
pub fn permitted(
    alloc: Global,
    pairs: &mut Pairs,
    sheet: &Sheet,
    step: &Step,
) -> Result<Allowed, AllocError>
    requires is_step { HasStep sheet.now.items step.now }
    requires planned { CanBePlanned sheet.now.items }
    ensures allowed { IfOk result (λ allowed. (e : Edit) → IsStep sheet.now.items step.now e →
        allowing.IsAllowed pairs.new.answers (order.reversed sheet.now.items (edited e sheet.now.items) e.moved) allowed) }
    ensures stays { allowing.Stays pairs.old pairs.new }
{
    selectors_are_in_the_profile();
    read_selectors_keep_the_limits();
    listed_is_reversed();
    parts_are_few();
    let new = apply(alloc, &sheet.items, step)?;
    let moved = moved_of(step);
    let entries = reversals(alloc, &sheet.items, &new.items, &moved)?;
    judged(pairs, &entries)
}

//! Whether a moved pair and what it faces block.

ghost use Rattle.std.specs.Prelude.{◌≡◌, IfOk, IfSome};
ghost use Rattle.css_model.specs.Documents.Specificity.{specificity_of};
ghost use Rattle.css_model.specs.Selectors.Profile.{IsInProfile};
ghost use Rattle.overlap.specs.Remembered.{Asks, IsTrueList};
ghost use Rattle.sheet_order.specs.Laws.{is_apart};
ghost use Rattle.step_obstacles.specs.Asking.{Stays};
ghost use Rattle.step_obstacles.specs.Blocked.{AreAnswered, IsTold};
ghost use Rattle.step_obstacles.specs.Known.{FacedStands};
ghost use Rattle.step_obstacles.specs.Turns.{Faces, MayWeigh, hindrance_of};
ghost use Rattle.plan_laws.specs.Barrier.Hindering.{OfPair};
ghost use Rattle.window_order.specs.Places.{IsKnownPair};
ghost use Rattle.window_order.specs.Weighing.{DeclsWeigh};

use crate::bounded_pairs::BoundedPairs;
use crate::facing::Facing;
use css_model::Selector;
use obstacles::Stopped;
use overlap::{Answer, Pairs};
use std::alloc::AllocError;
use window_order::{KnownPair, PairRef, Window};

/// Whether an answer says that the selectors are apart.
fn says_apart(answer: &Answer) -> bool
    ensures { result ≡ is_apart answer.now }
{
    matches!(answer, Answer::Apart)
}

/// Whether two selectors are held to be apart, if an answer is held.
fn held_apart(pairs: &BoundedPairs, x: &Selector, y: &Selector) -> Option<bool>
    ensures { IfSome result (λ apart. AreAnswered pairs.now.answers x.now y.now apart) }
{
    match pairs.pairs.known(x, y) {
        Some(answer) => Some(says_apart(answer)),
        None => None,
    }
}

/// Whether two selectors are answered to be apart. The answer is asked for.
fn asked_apart(pairs: &mut Pairs, x: &Selector, y: &Selector) -> Result<bool, AllocError>
    requires first { IsInProfile x.now }
    requires second { IsInProfile y.now }
    ensures asks { Asks pairs.old pairs.new x.now y.now }
    ensures list { ∥ IsTrueList pairs.new ∥₁ }
    ensures answered { IfOk result (λ apart. AreAnswered pairs.new.answers x.now y.now apart) }
{
    let answer = pairs.ask(x, y)?;
    Ok(says_apart(answer))
}

/// Whether two selectors are answered to be apart. The answer is asked for, unless as many are held as may be.
fn asked_within(pairs: &mut BoundedPairs, x: &Selector, y: &Selector) -> Result<bool, Stopped>
    requires first { IsInProfile x.now }
    requires second { IsInProfile y.now }
    ensures stays { Stays pairs.old pairs.new }
    ensures answered { IfOk result (λ apart. AreAnswered pairs.new.answers x.now y.now apart) }
{
    if pairs.is_full() {
        return Err(Stopped::Work);
    }
    let apart = asked_apart(&mut pairs.pairs, x, y)?;
    Ok(apart)
}

/// Whether two selectors are answered to be apart, by what is held of them; where nothing is, the answer is asked for.
#[tactic(auto, using(crate::proofs::HeldAnswers::stays_itself))]
fn told_apart(
    pairs: &mut BoundedPairs,
    x: &Selector,
    y: &Selector,
    held: Option<bool>,
) -> Result<bool, Stopped>
    requires first { IsInProfile x.now }
    requires second { IsInProfile y.now }
    requires held { IfSome held (λ apart. AreAnswered pairs.old.answers x.now y.now apart) }
    ensures stays { Stays pairs.old pairs.new }
    ensures answered { IfOk result (λ apart. AreAnswered pairs.new.answers x.now y.now apart) }
{
    match held {
        Some(apart) => Ok(apart),
        None => asked_within(pairs, x, y),
    }
}

/// Whether two pairs that weigh block. Their selectors are asked for only where they are reversed.
#[tactic(auto, using(crate::proofs::HeldAnswers::stays_itself))]
fn pairs_block(
    pairs: &mut BoundedPairs,
    window: &Window<'_>,
    p: &PairRef<'_>,
    of_p: &mut KnownPair,
    q: &PairRef<'_>,
    of_q: &mut KnownPair,
) -> Result<bool, Stopped>
    requires weigh { DeclsWeigh p.now.decl q.now.decl }
    requires specificity { specificity_of p.now.selector ≡ specificity_of q.now.selector }
    requires first { IsInProfile p.now.selector }
    requires second { IsInProfile q.now.selector }
    requires of_p { IsKnownPair window.now p.now of_p.old }
    requires faced { IsKnownPair window.now q.now of_q.old }
    ensures stays { Stays pairs.old pairs.new }
    ensures told { IfOk result (λ b. IsTold pairs.new.answers window.now (OfPair p.now q.now) b) }
    ensures of_p { IsKnownPair window.now p.now of_p.new }
    ensures faced { IsKnownPair window.now q.now of_q.new }
{
    let held = held_apart(pairs, p.selector, q.selector);
    if let Some(true) = held {
        return Ok(false);
    }
    if !window.is_known_reversed(p, of_p, q, of_q) {
        return Ok(false);
    }
    Ok(!told_apart(pairs, p.selector, q.selector, held)?)
}

/// Whether a moved pair and what it faces block.
#[tactic(auto, using(crate::proofs::HeldAnswers::stays_itself))]
pub(crate) fn blocks(
    pairs: &mut BoundedPairs,
    window: &Window<'_>,
    p: &PairRef<'_>,
    of_p: &mut KnownPair,
    facing: &Facing<'_>,
    of_facing: &mut KnownPair,
) -> Result<bool, Stopped>
    requires faces { Faces window.now p.now.decl facing.now }
    requires specificity { MayWeigh (specificity_of p.now.selector) facing.now }
    requires profile { IsInProfile p.now.selector }
    requires of_p { IsKnownPair window.now p.now of_p.old }
    requires faced { FacedStands window.now facing.now of_facing.old }
    ensures stays { Stays pairs.old pairs.new }
    ensures told { IfOk result (λ b. IsTold pairs.new.answers window.now (hindrance_of window.now.items.now facing.now p.now) b) }
    ensures of_p { IsKnownPair window.now p.now of_p.new }
    ensures faced { FacedStands window.now facing.now of_facing.new }
{
    match facing {
        Facing::Pair(q, _, _) => pairs_block(pairs, window, p, of_p, q, of_facing),
        Facing::Kept(number) => Ok(window.is_known_kept_reversed(p, of_p, *number as usize)),
    }
}

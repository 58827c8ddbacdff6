//! Whether a selector matches anything in any legal document, by what is answered for it and `*`.

ghost use Rattle.std.specs.Prelude.{◌≡◌, IfOk};
ghost use Rattle.css_model.specs.Selectors.Profile.{IsInProfile};
ghost use Rattle.dead_sel.specs.Living as spec;
ghost use Rattle.overlap.specs.Remembered.{Asks, IsHeld};

use crate::every::every;
use crate::living::Life;
use css_model::Selector;
use overlap::{Answer, Pairs};
use pair_laws::profile_keeps_the_limits;
use std::alloc::{AllocError, Global};

/// What the answer for a selector and `*` says of the selector.
fn life_by(answer: &Answer) -> Result<Life, AllocError>
    ensures { IfOk result (λ life. life ≡ spec.life_by answer.now) }
{
    match answer {
        Answer::Apart => Ok(Life::Dead),
        Answer::Meet(example) => Ok(Life::Alive(example.copy()?)),
        Answer::Outside(_, _) => Ok(Life::SpacesTaken),
        Answer::Spent(ledger) => Ok(Life::Spent(ledger.copy()?)),
    }
}

/// What the answer that is held for a selector and `*` says of the selector.
#[tactic(auto, using(crate::proofs::Known::not_unknown))]
fn known_life(pairs: &Pairs, s: &Selector, all: &Selector) -> Result<Life, AllocError>
    requires all { all.now ≡ spec.every s.now.pseudo }
    requires held { IsHeld pairs.now.answers s.now all.now }
    requires profile { IsInProfile s.now }
    ensures life { IfOk result (λ life. spec.IsLife pairs.now.answers s.now life) }
    ensures truth { IfOk result (λ life. ∥ spec.IsTrueLife s.now pairs.now.budget life ∥₁) }
{
    // A law; it does nothing.
    profile_keeps_the_limits();
    match pairs.known(s, all) {
        Some(answer) => life_by(answer),
        None => unreachable!(),
    }
}

/// Whether a selector of the profile matches anything in any legal document. The answer for it and `*` with its
/// pseudo-element says so, and is asked for where it is not held. All that was held stays. `AllocError` where memory is
/// short; all that was held stays then too.
#[tactic(auto, using(crate::proofs::Star::every_in_profile, crate::proofs::Known::asks_nothing))]
pub fn life(alloc: Global, pairs: &mut Pairs, s: &Selector) -> Result<Life, AllocError>
    requires { IsInProfile s.now }
    ensures asks { Asks pairs.old pairs.new s.now (spec.every s.now.pseudo) }
    ensures life { IfOk result (λ life. spec.IsLife pairs.new.answers s.now life) }
    ensures truth { IfOk result (λ life. ∥ spec.IsTrueLife s.now pairs.new.budget life ∥₁) }
{
    let all = every(alloc, s.pseudo)?;
    pairs.settle(s, &all)?;
    known_life(pairs, s, &all)
}

//! An answer for two selectors of one compound each.

ghost use Rattle.std.specs.Prelude.{◌≡◌, ◌++◌, ◌∷◌, [], ℕ, IfOk, MatchOption, length};
ghost use Rattle.compound_fit.specs.Fitting.{IsAnswer};
ghost use Rattle.element_laws.specs.Names.{HaveNames};
ghost use Rattle.sibling_counts.specs.Places.{AreFew};
ghost use Rattle.overlap.specs.Singles.{IsSingleAnswer};

use crate::answer::Answer;
use css_model::{Compound, Features, Pseudo, Simple};
use single_examples::{examples_show_meeting, first_example, meeting_selectors_pass};
use std::alloc::{AllocError, Global};

/// The simple selectors of the only compound, if there is but one.
pub(crate) fn only(chain: &[Compound]) -> Option<&[Simple]>
    ensures { MatchOption result (length chain.now ≡ 1 → ⊥) (λ c. chain.now ≡ c.now ∷ []) }
{
    match chain {
        [c] => Some(c.simples.as_slice()),
        _ => None,
    }
}

/// The answer for two compounds. They do not meet where no features fit both; else the three documents decide.
pub(crate) fn decide_single(
    alloc: Global,
    x: &[Simple],
    y: &[Simple],
    found: &Option<Features>,
    pseudo: Option<Pseudo>,
) -> Result<Answer, AllocError>
    requires few { AreFew (x.now ++ y.now) }
    requires first_names { HaveNames x.now }
    requires second_names { HaveNames y.now }
    requires found { IsAnswer found.now (x.now ++ y.now) }
    ensures { IfOk result (λ answer. IsSingleAnswer x.now y.now pseudo answer) }
{
    meeting_selectors_pass();
    examples_show_meeting();
    match found {
        Some(features) => match first_example(alloc, x, y, features, pseudo)? {
            Some(example) => Ok(Answer::Meet(example)),
            None => Ok(Answer::Apart),
        },
        None => Ok(Answer::Apart),
    }
}

//! An answer for two selectors.

ghost use Rattle.std.specs.Prelude.{◌≡◌, ◌≤◌, ◌↔◌, IfOk, IsTrue};
ghost use Rattle.css_model.specs.Selectors.Profile.{IsInProfile};
ghost use Rattle.css_model.specs.Sheets.Limits.{max_stepped};
ghost use Rattle.compound_fit.specs.Table.{IsTable};
ghost use Rattle.overlap.specs.Answers.{IsAlikeAnswer, IsDecided, IsFewAnswer, IsLogOf, IsTrueAnswer, pair_stepped, too_many_stepped};

use crate::answer::{Answer, Decision, NO_SPACE_LEFT, TOO_MANY_STEPPED};
use crate::formula::decide_combined;
use crate::single::{decide_single, only};
use compound_fit::{FitError, FitTable};
use css_model::{Pseudo, Selector};
use pair_laws::{profile_has_names, profile_is_fittable, profile_keeps_the_limits};
use slot_plan::{PairPlan, PlanError};
use std::alloc::{AllocError, Global};

/// The answer for two selectors of the profile, with a budget of learned clauses, and what is logged of it. Where no
/// log is asked for, some pairs are answered without their formula.
pub(crate) fn decide(
    alloc: Global,
    x: &Selector,
    y: &Selector,
    budget: u32,
    with_log: bool,
) -> Result<Decision, AllocError>
    requires first { IsInProfile x.now }
    requires second { IsInProfile y.now }
    ensures answer { IfOk result (λ d. IsTrueAnswer x.now y.now budget d.answer) }
    ensures log { IfOk result (λ d. IsTrue with_log → IsLogOf x.now y.now budget d.answer d.log) }
{
    if is_same(x.pseudo, y.pseudo) {
        decide_alike(alloc, x, y, budget, with_log)
    } else {
        Ok(Decision {
            answer: Answer::Apart,
            log: None,
        })
    }
}

/// Whether two pseudo-elements are the same, or both are none.
fn is_same(left: Option<Pseudo>, right: Option<Pseudo>) -> bool
    ensures { IsTrue result ↔ (left ≡ right) }
{
    left == right
}

/// The answer for two selectors of one pseudo-element, and what is logged of it.
fn decide_alike(
    alloc: Global,
    x: &Selector,
    y: &Selector,
    budget: u32,
    with_log: bool,
) -> Result<Decision, AllocError>
    requires first { IsInProfile x.now }
    requires second { IsInProfile y.now }
    requires pseudo { x.now.pseudo ≡ y.now.pseudo }
    ensures answer { IfOk result (λ d. IsAlikeAnswer x.now y.now budget d.answer) }
    ensures log { IfOk result (λ d. IsTrue with_log → IsLogOf x.now y.now budget d.answer d.log) }
{
    profile_keeps_the_limits();
    match PairPlan::new(alloc, x, y) {
        Ok(plan) => decide_few(alloc, x, y, &plan, budget, with_log),
        Err(PlanError::NthParts(count)) => Ok(Decision {
            answer: too_many(count),
            log: None,
        }),
        Err(PlanError::NoMemory) => Err(AllocError),
    }
}

/// The answer where so many positions with a large step are asked for.
fn too_many(count: u32) -> Answer
    ensures { result ≡ Answer.Outside too_many_stepped count }
{
    Answer::Outside(TOO_MANY_STEPPED, u64::from(count))
}

/// The answer where few positions with a large step are asked for, and there is a plan of the pair.
fn decide_few(
    alloc: Global,
    x: &Selector,
    y: &Selector,
    plan: &PairPlan,
    budget: u32,
    with_log: bool,
) -> Result<Decision, AllocError>
    requires first { IsInProfile x.now }
    requires second { IsInProfile y.now }
    requires pseudo { x.now.pseudo ≡ y.now.pseudo }
    requires few { pair_stepped x.now y.now ≤ max_stepped }
    requires plan { plan.now ≡ record { left = x.now; right = y.now } }
    ensures answer { IfOk result (λ d. IsFewAnswer x.now y.now budget d.answer) }
    ensures log { IfOk result (λ d. IsTrue with_log → IsLogOf x.now y.now budget d.answer d.log) }
{
    profile_is_fittable();
    match FitTable::new(alloc, x, y) {
        Ok(table) => decide_fitted(alloc, x, y, plan, &table, budget, with_log),
        Err(FitError::SpacesTaken) => Ok(Decision {
            answer: Answer::Outside(NO_SPACE_LEFT, 0),
            log: None,
        }),
        Err(FitError::NoMemory) => Err(AllocError),
    }
}

/// The answer where the fits of all groups of compounds are known.
fn decide_fitted(
    alloc: Global,
    x: &Selector,
    y: &Selector,
    plan: &PairPlan,
    table: &FitTable,
    budget: u32,
    with_log: bool,
) -> Result<Decision, AllocError>
    requires first { IsInProfile x.now }
    requires second { IsInProfile y.now }
    requires pseudo { x.now.pseudo ≡ y.now.pseudo }
    requires few { pair_stepped x.now y.now ≤ max_stepped }
    requires plan { plan.now ≡ record { left = x.now; right = y.now } }
    requires table { IsTable table.now x.now y.now }
    ensures answer { IfOk result (λ d. IsDecided x.now y.now budget d.answer) }
    ensures log { IfOk result (λ d. IsTrue with_log → IsLogOf x.now y.now budget d.answer d.log) }
{
    profile_keeps_the_limits();
    profile_has_names();
    match (only(x.chain.as_slice()), only(y.chain.as_slice())) {
        (Some(c), Some(d)) => {
            let answer = decide_single(alloc, c, d, &table.fits()[0], x.pseudo)?;
            Ok(Decision { answer, log: None })
        }
        _ => decide_combined(alloc, plan, table, budget, with_log),
    }
}

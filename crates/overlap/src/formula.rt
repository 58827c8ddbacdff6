//! An answer for two selectors by the formula of the pair, where one has a combinator.

ghost use Rattle.std.specs.Prelude.{IfOk, IsTrue};
ghost use Rattle.css_model.specs.Selectors.Profile.{IsInProfile};
ghost use Rattle.clause_encode.specs.Fits.{IsModel};
ghost use Rattle.compound_fit.specs.Table.{IsTable};
ghost use Rattle.overlap.specs.Combined.{IsCombinedAnswer, IsCombinedLog, IsEvidence};

use crate::answer::{Answer, Decision};
use crate::clashing::compounds_clash;
use clause_encode::encode;
use compound_fit::FitTable;
use css_model::Example;
use example_doc::build;
use pair_laws::{
    meeting_satisfies_the_formula, profile_has_names, profile_is_fittable, profile_keeps_the_limits,
};
use sat_core::{Verdict, solve};
use shape_decode::decode_shape;
use slot_plan::PairPlan;
use std::alloc::{AllocError, Global};

/// The answer for the two selectors of a plan, and what is logged of it.
pub(crate) fn decide_combined(
    alloc: Global,
    plan: &PairPlan,
    table: &FitTable,
    budget: u32,
    with_log: bool,
) -> Result<Decision, AllocError>
    requires first { IsInProfile plan.now.left }
    requires second { IsInProfile plan.now.right }
    requires table { IsTable table.now plan.now.left plan.now.right }
    ensures answer { IfOk result (λ d. IsCombinedAnswer plan.now.left plan.now.right budget d.answer) }
    ensures log { IfOk result (λ d. IsTrue with_log → IsCombinedLog plan.now.left plan.now.right budget d.answer d.log) }
{
    profile_keeps_the_limits();
    if !with_log && compounds_clash(plan, table) {
        return Ok(Decision {
            answer: Answer::Apart,
            log: None,
        });
    }
    decide_by_formula(alloc, plan, table, budget)
}

/// The answer by the formula of the pair. They do not meet, where no values satisfy it; it is the example of a shape of
/// satisfying values; or it is the ledger on which the budget of learned clauses was spent.
fn decide_by_formula(
    alloc: Global,
    plan: &PairPlan,
    table: &FitTable,
    budget: u32,
) -> Result<Decision, AllocError>
    requires first { IsInProfile plan.now.left }
    requires second { IsInProfile plan.now.right }
    requires table { IsTable table.now plan.now.left plan.now.right }
    ensures answer { IfOk result (λ d. IsCombinedAnswer plan.now.left plan.now.right budget d.answer) }
    ensures log { IfOk result (λ d. IsCombinedLog plan.now.left plan.now.right budget d.answer d.log) }
{
    profile_keeps_the_limits();
    meeting_satisfies_the_formula();
    let formula = encode(alloc, plan, table)?;
    match solve(alloc, &formula, budget)? {
        Verdict::NoModel(ledger) => Ok(Decision {
            answer: Answer::Apart,
            log: Some((formula, ledger)),
        }),
        Verdict::Model(values) => Ok(Decision {
            answer: Answer::Meet(example_of(alloc, plan, table, values.as_slice())?),
            log: None,
        }),
        Verdict::Spent(ledger) => Ok(Decision {
            answer: Answer::Spent(ledger),
            log: None,
        }),
    }
}

/// The example of the shape of values that satisfy the formula of the pair.
fn example_of(
    alloc: Global,
    plan: &PairPlan,
    table: &FitTable,
    values: &[bool],
) -> Result<Example, AllocError>
    requires first { IsInProfile plan.now.left }
    requires second { IsInProfile plan.now.right }
    requires table { IsTable table.now plan.now.left plan.now.right }
    requires model { IsModel plan.now.left plan.now.right values.now }
    ensures { IfOk result (λ e. IsEvidence e plan.now.left plan.now.right) }
{
    profile_keeps_the_limits();
    profile_has_names();
    profile_is_fittable();
    let shape = decode_shape(alloc, plan, values)?;
    build(alloc, plan, &shape, table)
}

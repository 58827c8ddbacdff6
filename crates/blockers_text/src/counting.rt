//! The steps of a planned sheet, counted.

ghost use Rattle.std.specs.Prelude.{◌≡◌, ◌<◌, ◌^◌, ℕ, List, map, IfOk, OnOk};
ghost use Rattle.std.specs.List.{AllByRecursion};
ghost use Rattle.plan_laws.specs.Plannable.{IsPlannable};
ghost use Rattle.step_candidates.specs.Saving.{IsSavingStep};
ghost use Rattle.step_laws.specs.Free.{Answered};
ghost use Rattle.blockers_text.specs.Bounds.{AreBelow};
ghost use Rattle.blockers_text.specs.Later.{Grows, IsLater, seen};
ghost use Rattle.blockers_text.specs.Levels.{CountsStep, CountsSteps};

use crate::stopped::{items_of, stopped_step};
use crate::tallies::{count_step, no_tallies};
use crate::tally::Tally;
use crate::totals::{Weighed, weigh};
use css_model::Sheet;
use order_index::Index;
use overlap::Pairs;
use sheet_order::BlockCause;
use std::alloc::{AllocError, Global};
use step_laws::Step;

/// Counts a step of a sheet. The answers are asked for.
#[tactic(auto, using(crate::proofs::Answered::grows_itself))]
fn count_one(
    alloc: Global,
    pairs: &mut Pairs,
    source: &[u8],
    sheet: &Sheet,
    index: &Index<'_>,
    step: &Step,
    steps: &mut Vec<Weighed>,
    tallies: &mut Vec<Tally>,
) -> Result<(), AllocError>
    requires plannable { IsPlannable source.now sheet.now.items }
    requires index { index.now ≡ sheet.now.items }
    requires saves { IsSavingStep source.now sheet.now.items step.now }
    requires small { (n : ℕ) × (n < 2 ^ 64) × AreBelow n tallies.old.items }
    ensures grows { Grows pairs.old pairs.new }
    ensures counts { OnOk result ((later : List Answered) → IsLater (seen pairs.new) later →
        CountsStep later source.now sheet.now.items step.now steps.old.items steps.new.items tallies.old.items tallies.new.items) }
{
    let stopped = stopped_step(alloc, pairs, source, sheet, index, step)?;
    steps.push(weigh(&stopped))?;
    count_step(tallies, &stopped);
    Ok(())
}

/// Counts steps of a sheet, and returns the tallies of its items. The answers are asked for.
#[tactic(auto, using(crate::proofs::Answered::grows_itself))]
pub(crate) fn count_steps(
    alloc: Global,
    pairs: &mut Pairs,
    source: &[u8],
    sheet: &Sheet,
    blocked: &[(Step, BlockCause)],
    steps: &mut Vec<Weighed>,
) -> Result<Vec<Tally>, AllocError>
    requires plannable { IsPlannable source.now sheet.now.items }
    requires saving { AllByRecursion (λ b. IsSavingStep source.now sheet.now.items b.0) blocked.now }
    ensures grows { Grows pairs.old pairs.new }
    ensures counts { IfOk result (λ tallies. (later : List Answered) → IsLater (seen pairs.new) later →
        CountsSteps later source.now sheet.now.items (map (λ b. b.0) blocked.now) steps.old.items steps.new.items tallies.items) }
{
    let index = Index::new(alloc, sheet)?;
    let mut tallies = no_tallies(alloc, items_of(sheet).len())?;
    let mut rest = blocked;
    'steps: while let [(step, _), others @ ..] = rest {
        // What is answered is true: a law, which does nothing.
        pairs.are_true();
        count_one(
            alloc,
            pairs,
            source,
            sheet,
            &index,
            step,
            steps,
            &mut tallies,
        )?;
        rest = others;
    }
    Ok(tallies)
}

//! What is told of a level of a sheet: the sheet itself, or the body of an opened block.

ghost use Rattle.std.specs.Prelude.{◌≡◌, ◌∷◌, ◌++◌, [], List, Ok, length, IfOk, OnOk};
ghost use Rattle.css_model.specs.Sheets.Sheet.{sheet_of};
ghost use Rattle.css_model.specs.Sheets.Sound.{IsSound};
ghost use Rattle.merge_plan.specs.Blocked.{AreBlockedSteps};
ghost use Rattle.plan_laws.specs.Plannable.{IsPlannable};
ghost use Rattle.step_laws.specs.Free.{Answered};
ghost use Rattle.step_laws.specs.Leading.{IsDone, Leads};
ghost use Rattle.blockers_text.specs.Later.{Grows, IsLater, seen};
ghost use Rattle.blockers_text.specs.Levels.{Tells, level_of};
ghost use Rattle.blockers_text.specs.Lines as spec;

use crate::counting::count_steps;
use crate::ranked::{Ranked, push_items};
use crate::seen::Seen;
use crate::stopped::items_of;
use crate::tally::Tally;
use crate::told::Told;
use css_model::Sheet;
use line_places::Lines;
use media_groups::reading_of;
use merge_laws::{leading_makes_of, read_is_plannable, read_keeps_the_limits};
use merge_plan::{Plan, plan};
use overlap::Pairs;
use std::alloc::{AllocError, Global};

/// A level of a sheet, as it was read.
#[derive(Drop)]
pub(crate) struct ReadLevel<'a> {
    /// The number of the item whose body it is, from 0.
    pub(crate) block: Option<u32>,
    /// Where its bytes begin in those of the sheet.
    pub(crate) start: u32,
    /// Its bytes.
    pub(crate) source: &'a [u8],
    /// What they are read as.
    pub(crate) sheet: &'a Sheet,
}

/// Plans a level. The answers are asked for.
fn plan_level(alloc: Global, pairs: &mut Pairs, level: &ReadLevel<'_>) -> Result<Plan, AllocError>
    requires { sheet_of level.now.source.now ≡ Ok level.now.sheet.now.items }
    ensures grows { Grows pairs.old pairs.new }
    ensures plannable { IfOk result (λ p. IsPlannable level.now.source.now p.sheet.items) }
    ensures leads { IfOk result (λ p. Leads (seen pairs.new) level.now.source.now p.taken level.now.sheet.now.items p.sheet.items) }
    ensures done { IfOk result (λ p. IsDone (seen pairs.new) level.now.source.now p.sheet.items) }
    ensures blocked { IfOk result (λ p. AreBlockedSteps pairs.new.answers level.now.source.now p.sheet.items p.blocked.items) }
{
    // Laws, which do nothing.
    leading_makes_of();
    read_is_plannable();
    let found = plan(alloc, pairs, level.source, level.sheet)?;
    Ok(found)
}

/// Tells of the items of a planned level that stop a step, by their tallies.
fn tell_items(
    alloc: Global,
    lines: &Lines<'_>,
    level: &ReadLevel<'_>,
    planned: &Sheet,
    tallies: &[Tally],
    ranked: &mut Vec<Ranked>,
) -> Result<(), AllocError>
    requires read { sheet_of level.now.source.now ≡ Ok level.now.sheet.now.items }
    requires sound { IsSound level.now.source.now planned.now.items }
    requires many { length tallies.now ≡ length planned.now.items }
    ensures { OnOk result (ranked.new.items ≡ ranked.old.items ++ spec.ranked_with
        (record { text = lines.now.text.now; start = level.now.start; source = level.now.source.now; items = planned.now.items }) tallies.now) }
{
    // A law, which does nothing.
    read_keeps_the_limits();
    let reading = reading_of(alloc, level.sheet, level.source)?;
    let seen = Seen {
        lines,
        start: level.start,
        reading: &reading,
        items: items_of(planned),
    };
    push_items(ranked, alloc, &seen, tallies)?;
    Ok(())
}

/// Plans a level, and tells of its items that stop a step. The answers are asked for.
pub(crate) fn tell_level(
    alloc: Global,
    pairs: &mut Pairs,
    lines: &Lines<'_>,
    level: &ReadLevel<'_>,
    told: &mut Told,
) -> Result<(), AllocError>
    requires { sheet_of level.now.source.now ≡ Ok level.now.sheet.now.items }
    ensures grows { Grows pairs.old pairs.new }
    ensures tells { OnOk result ((later : List Answered) → IsLater (seen pairs.new) later →
        Tells later lines.now.text.now (level_of level.now ∷ []) told.old told.new) }
{
    let found = plan_level(alloc, pairs, level)?;
    let tallies = count_steps(
        alloc,
        pairs,
        level.source,
        &found.sheet,
        &found.blocked,
        &mut told.weighed,
    )?;
    // What is answered is true: a law, which does nothing.
    pairs.are_true();
    tell_items(
        alloc,
        lines,
        level,
        &found.sheet,
        &tallies,
        &mut told.ranked,
    )?;
    Ok(())
}

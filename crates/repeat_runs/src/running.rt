//! Takes a run of cuts.

ghost use Rattle.std.specs.Prelude.{◌≡◌, ◌+◌, ◌≤◌, IfNone, IfOk, IfSome, List, Some, slice_get};
ghost use Rattle.css_model.specs.declared.sheet.Item.TheVariants as item;
ghost use Rattle.css_model.specs.Sheets.RuleParts.{RuleParts};
ghost use Rattle.plan_laws.specs.Plannable.{IsPlannable};
ghost use Rattle.repeat_runs.specs.OneRule.{HasNoOnlyRule, IsOnlyRule};
ghost use Rattle.repeat_runs.specs.Running.{CutsAll, IsRunOf};
ghost use Rattle.run_laws.specs.Runs.{Descend, parts};
ghost use Rattle.step_laws.specs.Free.{Answered};
ghost use Rattle.step_laws.specs.Leading.{Leads};
ghost use Rattle.step_laws.specs.Sizes.{size};

use crate::choosing::{Gone, choose};
use crate::cutting::cut_in;
use crate::finding::only_rule;
use crate::marks::marks_of;
use css_model::{Item, Rule, Sheet};
use run_laws::runs_lead;
use saved_bytes::KnownLengths;
use std::alloc::{AllocError, Global};

/// A sheet after a run of cuts.
#[derive(Debug, Drop)]
pub struct Run {
    /// The sheet.
    pub sheet: Sheet,
    /// How many steps the run took.
    pub taken: u32,
}

/// Returns the number of the item of a sheet that is a rule, from 0, if no other one is.
fn rule_number(sheet: &Sheet) -> Option<usize>
    ensures some { IfSome result (λ number. IsOnlyRule sheet.now.items number) }
    ensures none { IfNone result (HasNoOnlyRule sheet.now.items) }
{
    only_rule(sheet.items.as_slice())
}

/// Returns the rule of this number, from 0, if the item is one.
fn rule_at(sheet: &Sheet, number: usize) -> Option<&Rule>
    ensures some { IfSome result (λ rule. slice_get sheet.now.items number ≡ Some (item.Rule rule.now)) }
    ensures none { IfNone result ((r : RuleParts) → slice_get sheet.now.items number ≡ Some (item.Rule r) → ⊥) }
{
    match sheet.items.get(number) {
        Some(Item::Rule(rule)) => Some(rule),
        _ => None,
    }
}

/// Returns how many selectors and declarations the rule of a number has together.
fn parts_of(sheet: &Sheet, number: usize) -> usize
    ensures { (r : RuleParts) → slice_get sheet.now.items number ≡ Some (item.Rule r) → result ≡ parts r }
{
    match rule_at(sheet, number) {
        Some(rule) => rule.selectors.len() + rule.decls.len(),
        None => 0,
    }
}

/// Returns which parts of the rule of a number go in a run, or `None` if of equal parts a later one weighs more.
fn gone_of(
    alloc: Global,
    lengths: &KnownLengths<'_>,
    sheet: &Sheet,
    number: usize,
    most: u32,
) -> Result<Option<Gone>, AllocError>
    requires plannable { IsPlannable lengths.now sheet.now.items }
    ensures some { IfOk result (λ found. IfSome found (λ gone. IsRunOf lengths.now sheet.now.items number most gone.decls.items gone.selectors.items)) }
    ensures none { IfOk result (λ found. IfNone found ((r : RuleParts) → slice_get sheet.now.items number ≡ Some (item.Rule r) → Descend lengths.now r → ⊥)) }
{
    let Some(rule) = rule_at(sheet, number) else {
        return Ok(None);
    };
    let Some(marks) = marks_of(alloc, lengths, rule)? else {
        return Ok(None);
    };
    Ok(Some(choose(alloc, &marks, most)?))
}

/// Cuts the repeats of the one rule of a sheet, those first that weigh most, and no more than `most`. It may cut none if the sheet
/// has another number of rules, or if of equal parts a later one weighs more.
/// Each cut is the next step by all answers, so none is asked for. `Err(AllocError)` if memory is short.
pub fn cut_repeats(
    alloc: Global,
    lengths: &KnownLengths<'_>,
    sheet: Sheet,
    most: u32,
) -> Result<Run, AllocError>
    requires plannable { IsPlannable lengths.now sheet.items }
    ensures leads { IfOk result (λ r. (answers : List Answered) → Leads answers lengths.now r.taken sheet.items r.sheet.items) }
    ensures few { IfOk result (λ r. r.taken ≤ most) }
    ensures cuts { IfOk result (λ r. CutsAll lengths.now sheet.items most r.taken r.sheet.items) }
    ensures plannable { IfOk result (λ r. IsPlannable lengths.now r.sheet.items) }
    ensures shorter { IfOk result (λ r. r.taken + size lengths.now r.sheet.items ≤ size lengths.now sheet.items) }
{
    runs_lead();
    let Some(number) = rule_number(&sheet) else {
        return Ok(Run { sheet, taken: 0 });
    };
    let Some(gone) = gone_of(alloc, lengths, &sheet, number, most)? else {
        return Ok(Run { sheet, taken: 0 });
    };
    let before = parts_of(&sheet, number);
    let sheet = cut_in(alloc, sheet, number, &gone)?;
    let taken = (before - parts_of(&sheet, number)) as u32;
    Ok(Run { sheet, taken })
}

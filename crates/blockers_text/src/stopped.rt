//! A step of a planned sheet, with what stops it.

ghost use Rattle.std.specs.Prelude.{◌≡◌, ◌<◌, ◌≤ℤ◌, List, IfOk, pos};
ghost use Rattle.std.specs.List.{list_all, list_any};
ghost use Rattle.css_model.specs.Sheets.Limits.{max_bytes};
ghost use Rattle.plan_laws.specs.Plannable.{IsPlannable};
ghost use Rattle.step_candidates.specs.Saving.{IsSavingStep};
ghost use Rattle.step_laws.specs.Free.{Answered};
ghost use Rattle.blockers_text.specs.Later.{Grows, IsLater, TellsStep, seen};
ghost use Rattle.blockers_text.specs.Tallies as spec;

use crate::entries::find_stopping;
use css_model::{Item, Sheet};
use merge_laws::read_keeps_the_limits;
use order_index::Index;
use overlap::Pairs;
use print_laws::selectors_are_in_the_profile;
use sheet_order::{Other, Reversed};
use std::alloc::{AllocError, Global};
use std::marker::Model;
use step_laws::Step;
use step_savings::saving;

/// What stops a step.
#[derive(Clone, Copy, Debug, PartialEq, Eq)]
pub(crate) enum Part {
    /// Kept items alone.
    Kept,
    /// Rules alone.
    Rules,
    /// Kept items and rules.
    Both,
}

/// A step that one item stops, what it would save in bytes, and the entry that names the item.
#[derive(Clone, Copy, Debug)]
pub(crate) struct Best {
    pub(crate) step: Step,
    pub(crate) saved: u32,
    pub(crate) entry: Reversed,
}

/// A step, what it would save in bytes, and of each item that stops it the first entry that does.
#[derive(Drop)]
pub(crate) struct Stopped {
    pub(crate) step: Step,
    pub(crate) saved: u32,
    pub(crate) by: Vec<Reversed>,
}

impl Model for Stopped {
    ghost use Rattle.blockers_text.specs.Tallies as spec;

    ghost Value = { spec.Stopped };

    ghost view = { λ s. record { step = s.step; saved = s.saved; by = s.by.items } };
}

/// A number of bytes, or 0 if it is below 0.
fn bytes_of(saving: i64) -> u32
    requires { saving ≤ℤ pos max_bytes }
    ensures most { saving ≤ℤ pos result }
    ensures exact { 0 < result → saving ≡ pos result }
{
    if saving > 0 { saving as u32 } else { 0 }
}

/// How many bytes a step would save.
fn saved_by(source: &[u8], sheet: &Sheet, step: &Step) -> u32
    requires plannable { IsPlannable source.now sheet.now.items }
    requires saves { IsSavingStep source.now sheet.now.items step.now }
    ensures { result ≡ spec.saving source.now sheet.now.items step.now }
{
    // A law, which does nothing.
    read_keeps_the_limits();
    bytes_of(saving(sheet, source, step))
}

/// The items of a sheet.
pub(crate) fn items_of(sheet: &Sheet) -> &[Item]
    ensures { result.now ≡ sheet.now.items }
{
    sheet.items.as_slice()
}

/// A step of a sheet with what stops it. The answers are asked for.
pub(crate) fn stopped_step(
    alloc: Global,
    pairs: &mut Pairs,
    source: &[u8],
    sheet: &Sheet,
    index: &Index<'_>,
    step: &Step,
) -> Result<Stopped, AllocError>
    requires plannable { IsPlannable source.now sheet.now.items }
    requires index { index.now ≡ sheet.now.items }
    requires saves { IsSavingStep source.now sheet.now.items step.now }
    ensures grows { Grows pairs.old pairs.new }
    ensures tells { IfOk result (λ s. (later : List Answered) → IsLater (seen pairs.new) later → TellsStep later source.now sheet.now.items step.now s) }
{
    // A law, which does nothing.
    selectors_are_in_the_profile();
    let entries = index.reversed(alloc, step)?;
    let by = find_stopping(alloc, pairs, items_of(sheet), &entries)?;
    Ok(Stopped {
        step: *step,
        saved: saved_by(source, sheet, step),
        by,
    })
}

/// Whether an entry names a kept item.
fn is_by_kept(entry: &Reversed) -> bool
    ensures { result ≡ spec.is_by_kept entry.now }
{
    match entry.other {
        Other::Pair(_) => false,
        Other::Kept(_) => true,
    }
}

/// Whether entries name kept items alone.
fn all_kept(by: &[Reversed]) -> bool
    ensures { result ≡ list_all spec.is_by_kept by.now }
{
    by.iter().all(|entry| is_by_kept(entry))
}

/// Whether one of them names a kept item.
fn has_kept(by: &[Reversed]) -> bool
    ensures { result ≡ list_any spec.is_by_kept by.now }
{
    by.iter().any(|entry| is_by_kept(entry))
}

/// Whether kept items alone stop a step with these entries, rules alone, or both.
pub(crate) fn part_of(by: &[Reversed]) -> Part
    ensures { result ≡ spec.part_of by.now }
{
    if all_kept(by) {
        Part::Kept
    } else if has_kept(by) {
        Part::Both
    } else {
        Part::Rules
    }
}

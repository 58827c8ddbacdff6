//! All steps of a sheet, in their order.

ghost use Rattle.std.specs.Prelude.{◌≡◌, ◌↔◌, ◌≤◌, ◌<◌, ◌+◌, ◌^◌, [], IfOk, OnOk, length};
ghost use Rattle.std.specs.List.{AllPairs, Contains};
ghost use Rattle.css_model.specs.Sheets.Limits.{max_bytes, max_items};
ghost use Rattle.merge_steps.specs.Listing as listing;
ghost use Rattle.step_kinds.specs.StepsByKind.{kind_number};
ghost use Rattle.step_laws.specs.Sizes.{part_count};
ghost use Rattle.step_laws.specs.Steps.{HasStep, StandsBefore};
ghost use Rattle.step_laws.specs.declared.step.Step as declared;

use crate::possible::is_step;
use css_model::{Item, Sheet};
use std::alloc::{AllocError, Global};
use step_kinds::{Kind, step_of};
use step_laws::Step;

/// How many second numbers a step of this kind and first number may have.
fn seconds(items: &[Item], kind: Kind, first: u32) -> usize
    ensures { result ≡ listing.seconds items.now kind first }
{
    match (kind, items.get(first as usize)) {
        (Kind::DeclCut, Some(Item::Rule(rule))) => rule.decls.len(),
        (Kind::SelCut, Some(Item::Rule(rule))) => rule.selectors.len(),
        (Kind::DeclCut | Kind::SelCut, _) => 0,
        _ => items.len(),
    }
}

/// Puts the step of a kind and these numbers after those that come before, if the sheet has it.
#[tactic(auto, using(crate::proofs::Rows::pushed, crate::proofs::Rows::skipped))]
fn push_step(
    alloc: Global,
    found: &mut Vec<Step>,
    sheet: &Sheet,
    kind: Kind,
    first: u32,
    second: u32,
) -> Result<(), AllocError>
    requires { listing.ListsTo sheet.now.items (kind_number kind) first second found.old.items }
    ensures { OnOk result (listing.ListsTo sheet.now.items (kind_number kind) first (second + 1) found.new.items) }
{
    let step = step_of(kind, first, second);
    let is = is_step(alloc, &sheet.items, &step)?;
    if is {
        found.push(step)?;
    }
    Ok(())
}

/// Puts the steps of a kind and a first number after those that come before.
#[tactic(auto, using(crate::proofs::Rows::seconds_few))]
fn push_row(
    alloc: Global,
    found: &mut Vec<Step>,
    sheet: &Sheet,
    kind: Kind,
    first: u32,
) -> Result<(), AllocError>
    requires few_items { length sheet.now.items ≤ max_items }
    requires few_parts { part_count sheet.now.items ≤ max_bytes }
    requires lists { listing.ListsTo sheet.now.items (kind_number kind) first 0 found.old.items }
    ensures { OnOk result (listing.ListsTo sheet.now.items (kind_number kind) (first + 1) 0 found.new.items) }
{
    let limit = seconds(&sheet.items, kind, first) as u32;
    for second in 0..limit {
        push_step(alloc, found, sheet, kind, first, second)?;
    }
    Ok(())
}

#[tactic(auto, using(crate::proofs::Rows::kind_done))]
/// Puts the steps of a kind after those of the kinds before.
fn push_kind(
    alloc: Global,
    found: &mut Vec<Step>,
    sheet: &Sheet,
    kind: Kind,
) -> Result<(), AllocError>
    requires few_items { length sheet.now.items ≤ max_items }
    requires few_parts { part_count sheet.now.items ≤ max_bytes }
    requires lists { listing.ListsTo sheet.now.items (kind_number kind) 0 0 found.old.items }
    ensures { OnOk result (listing.ListsTo sheet.now.items (kind_number kind + 1) 0 0 found.new.items) }
{
    let items = sheet.items.as_slice();
    let limit = items.len() as u32;
    for first in 0..limit {
        push_row(alloc, found, sheet, kind, first)?;
    }
    Ok(())
}

#[tactic(auto, using(crate::proofs::Rows::none_listed, crate::proofs::Rows::all_listed))]
/// All steps of a sheet, in their order: by kind in the order of the variants of [`Step`], then by the first number,
/// then by the second. Each two rules of the sheet are looked at, and each part of a rule. `AllocError` where memory
/// runs out.
pub fn steps(alloc: Global, sheet: &Sheet) -> Result<Vec<Step>, AllocError>
    requires few_items { length sheet.now.items ≤ max_items }
    requires few_parts { part_count sheet.now.items ≤ max_bytes }
    ensures exact { IfOk result (λ list. (k : declared.Step) → Contains list.items k ↔ HasStep sheet.now.items k) }
    ensures ascends { IfOk result (λ list. AllPairs StandsBefore list.items) }
{
    let mut found = Vec::new(alloc);
    push_kind(alloc, &mut found, sheet, Kind::DeclCut)?;
    push_kind(alloc, &mut found, sheet, Kind::SelCut)?;
    push_kind(alloc, &mut found, sheet, Kind::SelJoinUp)?;
    push_kind(alloc, &mut found, sheet, Kind::SelJoinDown)?;
    push_kind(alloc, &mut found, sheet, Kind::DeclJoinUp)?;
    push_kind(alloc, &mut found, sheet, Kind::DeclJoinDown)?;
    push_kind(alloc, &mut found, sheet, Kind::Sharing)?;
    Ok(found)
}

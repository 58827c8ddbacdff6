//! Tries steps: the cuts of a rule, and its steps with each rule below that can be its partner.

ghost use Rattle.std.specs.Prelude.{◌≡◌, ◌<◌, ◌↔◌, IsTrue, Some, OnOk, length, slice_get};
ghost use Rattle.css_model.specs.declared.sheet.Item.TheVariants as item;
ghost use Rattle.step_candidates.specs.Numbered.{IsReady};
ghost use Rattle.step_candidates.specs.Saving.{IsSavingStep};
ghost use Rattle.step_candidates.specs.Walking.{Adds, IsBelow, IsDeclCut, IsOf, IsSelectorCut, IsWithOne};
ghost use Rattle.step_laws.specs.Steps.{HasStep, first_item};

use crate::cuts::is_step_of;
use crate::found::Found;
use crate::numbered::{Numbered, find_rule};
use css_model::Rule;
use rule_tables::{rules_are_order_keyed, steps_have_partners};
use std::alloc::{AllocError, Global};
use step_laws::{Step, parts_are_few};
use step_savings::saving_by;

/// Returns whether a step of the sheet saves bytes.
fn saves(on: &Numbered<'_>, step: &Step) -> bool
    requires ready { IsReady on.now.tables.now on.now.lengths.now on.now.sheet.now.items }
    requires is_step { HasStep on.now.sheet.now.items step.now }
    ensures { IsTrue result ↔ IsSavingStep on.now.lengths.now on.now.sheet.now.items step.now }
{
    saving_by(on.lengths, on.sheet, step) > 0
}

/// Adds a step, if it is one of the sheet and saves bytes.
fn try_step(on: &Numbered<'_>, step: &Step, found: &mut Found) -> Result<(), AllocError>
    requires { IsReady on.now.tables.now on.now.lengths.now on.now.sheet.now.items }
    ensures { OnOk result (Adds on.now.lengths.now on.now.sheet.now.items (λ k. k ≡ step.now) found.old found.new) }
{
    let is = is_step_of(on, step)?;
    if !is {
        return Ok(());
    }
    if !saves(on, step) {
        return Ok(());
    }
    found.put(step)?;
    Ok(())
}

/// Adds the cuts of the first `count` declarations of a rule that save bytes.
fn try_decl_cuts(
    on: &Numbered<'_>,
    number: u32,
    count: u32,
    found: &mut Found,
) -> Result<(), AllocError>
    requires { IsReady on.now.tables.now on.now.lengths.now on.now.sheet.now.items }
    ensures { OnOk result (Adds on.now.lengths.now on.now.sheet.now.items (IsDeclCut number count) found.old found.new) }
{
    for decl in 0..count {
        try_step(on, &Step::CutDecl { item: number, decl }, found)?;
    }
    Ok(())
}

/// Adds the cuts of the first `count` selectors of a rule that save bytes.
fn try_selector_cuts(
    on: &Numbered<'_>,
    number: u32,
    count: u32,
    found: &mut Found,
) -> Result<(), AllocError>
    requires { IsReady on.now.tables.now on.now.lengths.now on.now.sheet.now.items }
    ensures { OnOk result (Adds on.now.lengths.now on.now.sheet.now.items (IsSelectorCut number count) found.old found.new) }
{
    for sel in 0..count {
        try_step(on, &Step::CutSel { item: number, sel }, found)?;
    }
    Ok(())
}

/// Returns how many declarations a rule has.
fn decl_count(rule: &Rule) -> usize
    ensures { result ≡ length rule.now.decls }
{
    rule.decls.len()
}

/// Returns how many selectors a rule has.
fn selector_count(rule: &Rule) -> usize
    ensures { result ≡ length rule.now.selectors }
{
    rule.selectors.len()
}

/// Adds the cuts of a rule that save bytes.
fn try_cuts(
    on: &Numbered<'_>,
    number: u32,
    rule: &Rule,
    found: &mut Found,
) -> Result<(), AllocError>
    requires ready { IsReady on.now.tables.now on.now.lengths.now on.now.sheet.now.items }
    requires rule { slice_get on.now.sheet.now.items number ≡ Some (item.Rule rule.now) }
    ensures { OnOk result (Adds on.now.lengths.now on.now.sheet.now.items (IsOf number number) found.old found.new) }
{
    // A law on the number of parts. It does nothing.
    parts_are_few();
    let decls = decl_count(rule) as u32;
    let selectors = selector_count(rule) as u32;
    try_decl_cuts(on, number, decls, found)?;
    try_selector_cuts(on, number, selectors, found)?;
    Ok(())
}

/// Adds the steps of two rules that save bytes.
fn try_joins(on: &Numbered<'_>, upper: u32, lower: u32, found: &mut Found) -> Result<(), AllocError>
    requires ready { IsReady on.now.tables.now on.now.lengths.now on.now.sheet.now.items }
    requires in_order { upper < lower }
    ensures { OnOk result (Adds on.now.lengths.now on.now.sheet.now.items (IsOf upper lower) found.old found.new) }
{
    try_step(on, &Step::JoinSelUp { upper, lower }, found)?;
    try_step(on, &Step::JoinSelDown { upper, lower }, found)?;
    try_step(on, &Step::JoinDeclUp { upper, lower }, found)?;
    try_step(on, &Step::JoinDeclDown { upper, lower }, found)?;
    try_step(on, &Step::Share { upper, lower }, found)?;
    Ok(())
}

/// Adds the steps of a rule and the item of a number that save bytes, if that item is below the rule.
fn try_partner(
    on: &Numbered<'_>,
    number: u32,
    other: u64,
    found: &mut Found,
) -> Result<(), AllocError>
    requires { IsReady on.now.tables.now on.now.lengths.now on.now.sheet.now.items }
    ensures { OnOk result (Adds on.now.lengths.now on.now.sheet.now.items (IsBelow number other) found.old found.new) }
{
    if other <= u64::from(number) {
        return Ok(());
    }
    let sheet = on.sheet;
    if other >= sheet.items.len() as u64 {
        return Ok(());
    }
    try_joins(on, number, other as u32, found)?;
    Ok(())
}

/// Adds the steps of a rule and one of these items below it that save bytes.
fn try_partners(
    on: &Numbered<'_>,
    number: u32,
    others: &[u64],
    found: &mut Found,
) -> Result<(), AllocError>
    requires { IsReady on.now.tables.now on.now.lengths.now on.now.sheet.now.items }
    ensures { OnOk result (Adds on.now.lengths.now on.now.sheet.now.items (IsWithOne number others.now) found.old found.new) }
{
    let mut rest = others;
    'rest: while let Some((other, behind)) = rest.split_first() {
        try_partner(on, number, *other, found)?;
        rest = behind;
    }
    Ok(())
}

/// Adds the steps that save bytes and have the item of this number as their first item.
fn try_rule(
    alloc: Global,
    on: &Numbered<'_>,
    number: u32,
    found: &mut Found,
) -> Result<(), AllocError>
    requires { IsReady on.now.tables.now on.now.lengths.now on.now.sheet.now.items }
    ensures { OnOk result (Adds on.now.lengths.now on.now.sheet.now.items (λ k. first_item k ≡ number) found.old found.new) }
{
    // Laws on partners. They do nothing.
    steps_have_partners();
    rules_are_order_keyed();
    let Some(rule) = find_rule(on.sheet, u64::from(number)) else {
        return Ok(());
    };
    try_cuts(on, number, rule, found)?;
    let partners = on.tables.partners(alloc, rule)?;
    try_partners(on, number, &partners, found)?;
    Ok(())
}

/// Adds all steps of the sheet that save bytes.
pub(crate) fn try_rules(
    alloc: Global,
    on: &Numbered<'_>,
    found: &mut Found,
) -> Result<(), AllocError>
    requires { IsReady on.now.tables.now on.now.lengths.now on.now.sheet.now.items }
    ensures { OnOk result (Adds on.now.lengths.now on.now.sheet.now.items (λ k. Unit {0}) found.old found.new) }
{
    let sheet = on.sheet;
    let items = sheet.items.as_slice();
    let count = items.len() as u32;
    for number in 0..count {
        try_rule(alloc, on, number, found)?;
    }
    Ok(())
}

//! Copies of parts of rules: those of one rule, and what a step makes of the parts of two.

ghost use Rattle.std.specs.Prelude.{◌≡◌, ◌++◌, ◌<◌, IfOk, OnOk, not, length};
ghost use Rattle.std.specs.List.{filter, remove};
ghost use Rattle.order_laws.specs.Members as members;
ghost use Rattle.step_laws.specs.RuleParting as parting;
ghost use Rattle.step_laws.specs.StepEdits as edits;

use crate::members::{has_decl, has_selector};
use css_model::{DeclItem, Rule, SelItem};
use std::alloc::{AllocError, Global};

/// Puts copies of the selectors after the others.
fn push_selectors(into: &mut Vec<SelItem>, items: &[SelItem]) -> Result<(), AllocError>
    ensures { OnOk result (into.new.items ≡ into.old.items ++ items.now) }
{
    for item in items {
        into.push(item.copy()?)?;
    }
    Ok(())
}

/// Puts copies of the declarations after the others.
fn push_decls(into: &mut Vec<DeclItem>, items: &[DeclItem]) -> Result<(), AllocError>
    ensures { OnOk result (into.new.items ≡ into.old.items ++ items.now) }
{
    for item in items {
        into.push(item.copy()?)?;
    }
    Ok(())
}

/// Copies of the selectors. `Err(AllocError)` if memory is short.
pub fn copied_selectors(alloc: Global, items: &[SelItem]) -> Result<Vec<SelItem>, AllocError>
    ensures { IfOk result (λ copies. copies.items ≡ items.now) }
{
    let mut copies = Vec::new(alloc);
    push_selectors(&mut copies, items)?;
    Ok(copies)
}

/// Copies of the declarations. `Err(AllocError)` if memory is short.
pub fn copied_decls(alloc: Global, items: &[DeclItem]) -> Result<Vec<DeclItem>, AllocError>
    ensures { IfOk result (λ copies. copies.items ≡ items.now) }
{
    let mut copies = Vec::new(alloc);
    push_decls(&mut copies, items)?;
    Ok(copies)
}

/// Copies of the selectors without the one of this number, from 0. `Err(AllocError)` if memory is short.
pub fn other_selectors(
    alloc: Global,
    items: &[SelItem],
    number: u32,
) -> Result<Vec<SelItem>, AllocError>
    requires { number < length items.now }
    ensures { IfOk result (λ others. others.items ≡ remove items.now number) }
{
    let mut others = copied_selectors(alloc, items)?;
    others.remove(number as usize);
    Ok(others)
}

/// Copies of the declarations without the one of this number, from 0. `Err(AllocError)` if memory is short.
pub fn other_decls(
    alloc: Global,
    items: &[DeclItem],
    number: u32,
) -> Result<Vec<DeclItem>, AllocError>
    requires { number < length items.now }
    ensures { IfOk result (λ others. others.items ≡ remove items.now number) }
{
    let mut others = copied_decls(alloc, items)?;
    others.remove(number as usize);
    Ok(others)
}

/// Puts those of the selectors that are not among the others after what is there.
fn push_new_selectors(
    into: Vec<SelItem>,
    items: &[SelItem],
    others: &[SelItem],
) -> Result<Vec<SelItem>, AllocError>
    ensures { IfOk result (λ kept. kept.items ≡ into.items ++ filter (λ s. not (members.has_selector others.now s.selector)) items.now) }
{
    let mut kept = into;
    let mut rest = items;
    'rest: while let Some((first, behind)) = rest.split_first() {
        if !has_selector(others, &first.selector) {
            kept.push(first.copy()?)?;
        }
        rest = behind;
    }
    Ok(kept)
}

/// Copies of the selectors of the upper rule, then of those of the lower one that the upper one lacks.
/// `Err(AllocError)` if memory is short.
pub fn both_selectors(alloc: Global, upper: &Rule, lower: &Rule) -> Result<Vec<SelItem>, AllocError>
    ensures { IfOk result (λ both. both.items ≡ parting.both_selectors upper.now lower.now) }
{
    let first = copied_selectors(alloc, &upper.selectors)?;
    push_new_selectors(first, &lower.selectors, &upper.selectors)
}

/// Copies of the declarations of the upper rule, then of those of the lower one. `Err(AllocError)` if memory is short.
pub fn both_decls(alloc: Global, upper: &Rule, lower: &Rule) -> Result<Vec<DeclItem>, AllocError>
    ensures { IfOk result (λ both. both.items ≡ upper.now.decls ++ lower.now.decls) }
{
    let mut both = copied_decls(alloc, &upper.decls)?;
    push_decls(&mut both, &lower.decls)?;
    Ok(both)
}

/// Those of the declarations that are among the others.
fn decls_among(
    alloc: Global,
    items: &[DeclItem],
    others: &[DeclItem],
) -> Result<Vec<DeclItem>, AllocError>
    ensures { IfOk result (λ kept. kept.items ≡ filter (λ d. members.has_decl others.now d.decl) items.now) }
{
    let mut kept = Vec::new(alloc);
    let mut rest = items;
    'rest: while let Some((first, behind)) = rest.split_first() {
        if has_decl(others, &first.decl) {
            kept.push(first.copy()?)?;
        }
        rest = behind;
    }
    Ok(kept)
}

/// Each declaration once, where it comes last.
fn each_last(alloc: Global, items: &[DeclItem]) -> Result<Vec<DeclItem>, AllocError>
    ensures { IfOk result (λ last. last.items ≡ parting.each_last items.now) }
{
    let mut last = Vec::new(alloc);
    let mut rest = items;
    'rest: while let Some((first, behind)) = rest.split_first() {
        if !has_decl(behind, &first.decl) {
            last.push(first.copy()?)?;
        }
        rest = behind;
    }
    Ok(last)
}

/// Copies of the declarations of the lower rule that are in the upper one too, each once, where it comes last.
/// `Err(AllocError)` if memory is short.
pub fn common_decls(alloc: Global, upper: &Rule, lower: &Rule) -> Result<Vec<DeclItem>, AllocError>
    ensures { IfOk result (λ common. common.items ≡ parting.common_decls upper.now lower.now) }
{
    let common = decls_among(alloc, &lower.decls, &upper.decls)?;
    each_last(alloc, &common)
}

/// A rule with the common declarations of two rules, each once, where it comes last in the lower one, and with the selectors
/// of both. `Err(AllocError)` if memory is short.
pub fn shared(alloc: Global, upper: &Rule, lower: &Rule) -> Result<Rule, AllocError>
    ensures { IfOk result (λ r. r ≡ edits.shared upper.now lower.now) }
{
    let selectors = both_selectors(alloc, upper, lower)?;
    let decls = common_decls(alloc, upper, lower)?;
    Ok(Rule { selectors, decls })
}

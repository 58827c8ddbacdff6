//! What a step leaves of its rules.

ghost use Rattle.std.specs.Prelude.{◌≡◌, ◌++◌, ◌<◌, ◌∷◌, [], IfOk, OnOk, not, length, true};
ghost use Rattle.std.specs.List.{filter, remove};
ghost use Rattle.css_model.specs.declared.sheet.Item.TheVariants as item;
ghost use Rattle.css_model.specs.Sheets.StyleRule as style;
ghost use Rattle.order_laws.specs.Members as members;
ghost use Rattle.step_laws.specs.RuleParting as parting;
ghost use Rattle.indexed_sheet.specs.Putting.{HaveNoneInCommon, items_in};
ghost use Rattle.step_savings.specs.Apart.{AreApart};

use css_model::{DeclItem, Rule, SelItem};
use rule_parts::{copied_selectors, has_decl, has_selector};
use std::alloc::{AllocError, Global};

/// The rules that a step puts instead of one rule.
#[derive(Debug, Drop)]
pub(crate) enum Left {
    /// None.
    Nothing,
    /// One.
    One(Rule),
    /// Two, the first one above the second.
    Two(Rule, Rule),
}

/// Returns a rule, or nothing if it has no selector or no declaration.
pub(crate) fn left_of(rule: Rule) -> Left
    ensures { items_in result ≡ parting.rule_or_none rule }
{
    if rule.selectors.is_empty() || rule.decls.is_empty() {
        Left::Nothing
    } else {
        Left::One(rule)
    }
}

/// Returns the selectors of a rule, and what is left of it: the rule, or nothing if it has no selector or no declaration.
/// The selectors are copied only if the rule is left.
pub(crate) fn selectors_and_left(
    alloc: Global,
    rule: Rule,
) -> Result<(Vec<SelItem>, Left), AllocError>
    ensures selectors { IfOk result (λ r. r.0.items ≡ rule.selectors) }
    ensures left { IfOk result (λ r. items_in r.1 ≡ parting.rule_or_none rule) }
{
    if rule.selectors.is_empty() || rule.decls.is_empty() {
        let Rule { selectors, decls } = rule;
        drop(decls);
        return Ok((selectors, Left::Nothing));
    }
    let selectors = copied_selectors(alloc, &rule.selectors)?;
    Ok((selectors, Left::One(rule)))
}

/// Returns the selectors, then copies of those of the others that are not among them.
/// `apart` says that the two lists have no selector in common.
pub(crate) fn with_copies(
    alloc: Global,
    selectors: Vec<SelItem>,
    others: &[SelItem],
    apart: bool,
) -> Result<Vec<SelItem>, AllocError>
    requires { apart ≡ true → HaveNoneInCommon selectors.items others.now }
    ensures { IfOk result (λ all. all.items ≡ selectors.items ++ filter (λ s. not (members.has_selector selectors.items s.selector)) others.now) }
{
    let copies = copied_selectors(alloc, others)?;
    all_selectors(alloc, selectors, copies, apart)
}

/// Returns a rule, and below it another one if that has a selector and a declaration.
pub(crate) fn above_left(made: Rule, rest: Rule) -> Left
    ensures { items_in result ≡ item.Rule made ∷ parting.rule_or_none rest }
{
    if rest.selectors.is_empty() || rest.decls.is_empty() {
        Left::One(made)
    } else {
        Left::Two(made, rest)
    }
}

/// Returns what is left of a rule without its declaration of this number.
pub(crate) fn without_decl(rule: Rule, decl: u32) -> Left
    requires { decl < length rule.decls }
    ensures { items_in result ≡ parting.rule_or_none (record { selectors = rule.selectors; decls = remove rule.decls decl }) }
{
    let Rule {
        selectors,
        mut decls,
    } = rule;
    decls.remove(decl as usize);
    left_of(Rule { selectors, decls })
}

/// Returns what is left of a rule without its selector of this number.
pub(crate) fn without_selector(rule: Rule, sel: u32) -> Left
    requires { sel < length rule.selectors }
    ensures { items_in result ≡ parting.rule_or_none (record { selectors = remove rule.selectors sel; decls = rule.decls }) }
{
    let Rule {
        mut selectors,
        decls,
    } = rule;
    selectors.remove(sel as usize);
    left_of(Rule { selectors, decls })
}

/// Returns the upper rule with the declarations of the lower one after its own.
pub(crate) fn joined_up(upper: Rule, lower: Rule) -> Result<Rule, AllocError>
    ensures { IfOk result (λ r. r ≡ style.joined upper lower) }
{
    let Rule {
        selectors,
        mut decls,
    } = upper;
    let Rule {
        selectors: gone,
        decls: mut more,
    } = lower;
    drop(gone);
    decls.append(&mut more)?;
    Ok(Rule { selectors, decls })
}

/// Returns the lower rule with the declarations of the upper one before its own.
pub(crate) fn joined_down(upper: Rule, lower: Rule) -> Result<Rule, AllocError>
    ensures { IfOk result (λ r. r ≡ record { selectors = lower.selectors; decls = upper.decls ++ lower.decls }) }
{
    let Rule {
        selectors: gone,
        mut decls,
    } = upper;
    let Rule {
        selectors,
        decls: mut more,
    } = lower;
    drop(gone);
    decls.append(&mut more)?;
    Ok(Rule { selectors, decls })
}

/// Returns those of the selectors that are not among the others.
fn new_selectors(
    alloc: Global,
    items: Vec<SelItem>,
    others: &[SelItem],
) -> Result<Vec<SelItem>, AllocError>
    ensures { IfOk result (λ kept. kept.items ≡ filter (λ s. not (members.has_selector others.now s.selector)) items.items) }
{
    let mut kept = Vec::new(alloc);
    for item in items {
        if !has_selector(others, &item.selector) {
            kept.push(item)?;
        }
    }
    Ok(kept)
}

/// Returns the selectors of the upper rule, then those of the lower one that the upper one lacks.
/// `apart` says that the two lists have no selector in common.
fn all_selectors(
    alloc: Global,
    upper: Vec<SelItem>,
    mut lower: Vec<SelItem>,
    apart: bool,
) -> Result<Vec<SelItem>, AllocError>
    requires { apart ≡ true → HaveNoneInCommon upper.items lower.items }
    ensures { IfOk result (λ all. all.items ≡ upper.items ++ filter (λ s. not (members.has_selector upper.items s.selector)) lower.items) }
{
    let mut all = upper;
    if apart {
        all.append(&mut lower)?;
        return Ok(all);
    }
    let mut more = new_selectors(alloc, lower, &all)?;
    all.append(&mut more)?;
    Ok(all)
}

/// Returns a rule with the selectors of both rules and the declarations of the upper one.
/// `apart` says that the rules have no selector in common.
pub(crate) fn widened_up(
    alloc: Global,
    upper: Rule,
    lower: Rule,
    apart: bool,
) -> Result<Rule, AllocError>
    requires { apart ≡ true → AreApart upper lower }
    ensures { IfOk result (λ r. r ≡ record { selectors = parting.both_selectors upper lower; decls = upper.decls }) }
{
    let Rule {
        selectors: above,
        decls,
    } = upper;
    let Rule {
        selectors: below,
        decls: gone,
    } = lower;
    drop(gone);
    let selectors = all_selectors(alloc, above, below, apart)?;
    Ok(Rule { selectors, decls })
}

/// Returns a rule with the selectors of both rules and the declarations of the lower one.
/// `apart` says that the rules have no selector in common.
pub(crate) fn widened_down(
    alloc: Global,
    upper: Rule,
    lower: Rule,
    apart: bool,
) -> Result<Rule, AllocError>
    requires { apart ≡ true → AreApart upper lower }
    ensures { IfOk result (λ r. r ≡ record { selectors = parting.both_selectors upper lower; decls = lower.decls }) }
{
    let Rule {
        selectors: above,
        decls: gone,
    } = upper;
    let Rule {
        selectors: below,
        decls,
    } = lower;
    drop(gone);
    let selectors = all_selectors(alloc, above, below, apart)?;
    Ok(Rule { selectors, decls })
}

/// Returns those of the declarations that are not among the others.
fn other_decls(
    alloc: Global,
    items: Vec<DeclItem>,
    others: &[DeclItem],
) -> Result<Vec<DeclItem>, AllocError>
    ensures { IfOk result (λ kept. kept.items ≡ filter (λ d. not (members.has_decl others.now d.decl)) items.items) }
{
    let mut kept = Vec::new(alloc);
    for item in items {
        if !has_decl(others, &item.decl) {
            kept.push(item)?;
        }
    }
    Ok(kept)
}

/// Returns a rule without these declarations.
pub(crate) fn without_decls(
    alloc: Global,
    gone: &[DeclItem],
    rule: Rule,
) -> Result<Rule, AllocError>
    ensures { IfOk result (λ rest. rest ≡ parting.without_decls gone.now rule) }
{
    let Rule { selectors, decls } = rule;
    let decls = other_decls(alloc, decls, gone)?;
    Ok(Rule { selectors, decls })
}

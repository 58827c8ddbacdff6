//! Whether a step is one of a sheet.

ghost use Rattle.std.specs.Prelude.{◌≡◌, ◌↔◌, ◌<◌, IfOk, IsTrue, Some, IfSome, IfNone, length, map, slice_get};
ghost use Rattle.std.specs.List.{Contains, list_all};
ghost use Rattle.css_model.specs.declared.sheet.Decl as declared;
ghost use Rattle.css_model.specs.declared.sheet.Item.TheVariants as item;
ghost use Rattle.css_model.specs.Sheets.RuleParts.{RuleParts};
ghost use Rattle.merge_steps.specs.Standing as standing;
ghost use Rattle.merge_steps.specs.StepParts.{HasRoom, IsCutKind, IsJoinKind, MayJoin};
ghost use Rattle.step_laws.specs.declared.step.Step.TheVariants as kinds;
ghost use Rattle.step_laws.specs.Steps.{AreDeclsAmong, HasStep, MayShare, decls_of, first_item, last_item};

use crate::members::{have_same_decls, have_same_selectors, is_a_decl_among};
use css_model::{Decl, DeclItem, Item, MAX_ITEMS, Rule, SelItem, Selector};
use rule_parts::{are_decls_among, has_decl, has_selector};
use std::alloc::{AllocError, Global};
use step_laws::Step;

/// Whether an item is a rule with this pair.
fn is_in_item(item: &Item, selector: &Selector, decl: &Decl) -> bool
    ensures { result ≡ standing.is_in_item (record { selector = selector.now; decl = decl.now }) item.now }
{
    match item {
        Item::Rule(rule) => has_selector(&rule.selectors, selector) && has_decl(&rule.decls, decl),
        _ => false,
    }
}

/// Whether a pair is in one of the items.
fn stands(items: &[Item], selector: &Selector, decl: &Decl) -> bool
    ensures { result ≡ standing.stands items.now (record { selector = selector.now; decl = decl.now }) }
{
    let mut rest = items;
    'rest: while let Some((first, behind)) = rest.split_first() {
        if is_in_item(first, selector, decl) {
            return true;
        }
        rest = behind;
    }
    false
}

/// Whether a pair is above or below.
fn stands_beside(above: &[Item], below: &[Item], selector: &Selector, decl: &Decl) -> bool
    ensures { result ≡ standing.stands_beside above.now below.now (record { selector = selector.now; decl = decl.now }) }
{
    stands(above, selector, decl) || stands(below, selector, decl)
}

/// Whether each of the selectors is above or below with a declaration.
fn all_stand_with_decl(above: &[Item], below: &[Item], selectors: &[SelItem], decl: &Decl) -> bool
    ensures { result ≡ list_all (λ s. standing.stands_beside above.now below.now (record { selector = s.selector; decl = decl.now })) selectors.now }
{
    let mut rest = selectors;
    'rest: while let Some((first, behind)) = rest.split_first() {
        if !stands_beside(above, below, &first.selector, decl) {
            return false;
        }
        rest = behind;
    }
    true
}

/// Whether each of the declarations is above or below with a selector.
fn all_stand_with_selector(
    above: &[Item],
    below: &[Item],
    selector: &Selector,
    decls: &[DeclItem],
) -> bool
    ensures { result ≡ list_all (λ d. standing.stands_beside above.now below.now (record { selector = selector.now; decl = d.decl })) decls.now }
{
    let mut rest = decls;
    'rest: while let Some((first, behind)) = rest.split_first() {
        if !stands_beside(above, below, selector, &first.decl) {
            return false;
        }
        rest = behind;
    }
    true
}

/// Whether a declaration occurs twice in a rule, once at this number.
fn is_decl_again(decls: &[DeclItem], number: u32, decl: &Decl) -> bool
    requires { number < length decls.now }
    ensures { result ≡ standing.is_decl_again decls.now number decl.now }
{
    let number = number as usize;
    has_decl(&decls[..number], decl) || has_decl(&decls[number + 1..], decl)
}

/// Whether a selector occurs twice in a rule, once at this number.
fn is_selector_again(selectors: &[SelItem], number: u32, selector: &Selector) -> bool
    requires { number < length selectors.now }
    ensures { result ≡ standing.is_selector_again selectors.now number selector.now }
{
    let number = number as usize;
    has_selector(&selectors[..number], selector) || has_selector(&selectors[number + 1..], selector)
}

/// Whether the pairs of a declaration of a rule are all beside it too.
fn is_decl_elsewhere(items: &[Item], number: u32, rule: &Rule, decl: u32, cut: &Decl) -> bool
    requires at { number < length items.now }
    requires part { decl < length rule.now.decls }
    ensures { result ≡ standing.is_decl_elsewhere items.now number rule.now decl cut.now }
{
    let number = number as usize;
    is_decl_again(&rule.decls, decl, cut)
        || all_stand_with_decl(&items[..number], &items[number + 1..], &rule.selectors, cut)
}

/// Whether the pairs of a selector of a rule are all beside it too.
fn is_selector_elsewhere(items: &[Item], number: u32, rule: &Rule, sel: u32, cut: &Selector) -> bool
    requires at { number < length items.now }
    requires part { sel < length rule.now.selectors }
    ensures { result ≡ standing.is_selector_elsewhere items.now number rule.now sel cut.now }
{
    let number = number as usize;
    is_selector_again(&rule.selectors, sel, cut)
        || all_stand_with_selector(&items[..number], &items[number + 1..], cut, &rule.decls)
}

/// The rule of this number, if it is one.
fn find_rule(items: &[Item], number: u32) -> Option<&Rule>
    ensures some { IfSome result (λ rule. slice_get items.now number ≡ Some (item.Rule rule.now)) }
    ensures none { IfNone result ((r : RuleParts) → slice_get items.now number ≡ Some (item.Rule r) → ⊥) }
{
    match items.get(number as usize) {
        Some(Item::Rule(rule)) => Some(rule),
        _ => None,
    }
}

/// Whether a declaration of a rule can be cut.
#[tactic(auto, using(crate::proofs::Cuts::decl_cut_answered, crate::proofs::Cuts::no_decl_to_cut, crate::proofs::Cuts::rule_number))]
fn can_cut_decl(items: &[Item], number: u32, rule: &Rule, decl: u32) -> bool
    requires { slice_get items.now number ≡ Some (item.Rule rule.now) }
    ensures { IsTrue result ↔ HasStep items.now (kinds.CutDecl number decl) }
{
    match rule.decls.get(decl as usize) {
        Some(cut) => is_decl_elsewhere(items, number, rule, decl, &cut.decl),
        None => false,
    }
}

/// Whether a selector of a rule can be cut.
#[tactic(auto, using(crate::proofs::Cuts::selector_cut_answered, crate::proofs::Cuts::no_selector_to_cut, crate::proofs::Cuts::rule_number))]
fn can_cut_selector(items: &[Item], number: u32, rule: &Rule, sel: u32) -> bool
    requires { slice_get items.now number ≡ Some (item.Rule rule.now) }
    ensures { IsTrue result ↔ HasStep items.now (kinds.CutSel number sel) }
{
    match rule.selectors.get(sel as usize) {
        Some(cut) => is_selector_elsewhere(items, number, rule, sel, &cut.selector),
        None => false,
    }
}

/// Whether a declaration of the upper rule is in the lower one too.
#[tactic(auto, using(crate::proofs::Among::decl_common_is))]
fn have_common_decl(upper: &Rule, lower: &Rule) -> bool
    ensures { IsTrue result ↔ ((d : declared.Decl) × Contains (decls_of upper.now) d × Contains (decls_of lower.now) d) }
{
    is_a_decl_among(&lower.decls, &upper.decls)
}

/// Whether each declaration of a rule is in another one too.
#[tactic(auto, using(crate::proofs::Among::decls_among_is))]
fn are_decls_of(rule: &Rule, other: &Rule) -> bool
    ensures { IsTrue result ↔ AreDeclsAmong rule.now other.now }
{
    are_decls_among(&rule.decls, &other.decls)
}

/// Whether one of two rules has no declarations but those of the other, or a sheet of these items may have one more.
fn has_room(items: &[Item], upper: &Rule, lower: &Rule) -> bool
    ensures { IsTrue result ↔ HasRoom items.now upper.now lower.now }
{
    if items.len() < MAX_ITEMS as usize {
        return true;
    }
    if are_decls_of(upper, lower) {
        return true;
    }
    are_decls_of(lower, upper)
}

/// Whether two rules of a sheet of these items may share their common declarations.
fn may_share(alloc: Global, items: &[Item], upper: &Rule, lower: &Rule) -> Result<bool, AllocError>
    ensures { IfOk result (λ may. IsTrue may ↔ MayShare items.now upper.now lower.now) }
{
    if have_same_decls(upper, lower) {
        return Ok(false);
    }
    if !have_common_decl(upper, lower) {
        return Ok(false);
    }
    let same = have_same_selectors(alloc, upper, lower)?;
    if same {
        return Ok(false);
    }
    Ok(has_room(items, upper, lower))
}

/// Whether two rules may be joined so by a step of this kind, in a sheet of these items.
fn may_join(
    alloc: Global,
    items: &[Item],
    step: &Step,
    upper: &Rule,
    lower: &Rule,
) -> Result<bool, AllocError>
    ensures { IfOk result (λ may. IsTrue may ↔ MayJoin items.now step.now upper.now lower.now) }
{
    match step {
        Step::CutDecl { .. } | Step::CutSel { .. } => Ok(false),
        Step::JoinSelUp { .. } | Step::JoinSelDown { .. } => {
            have_same_selectors(alloc, upper, lower)
        }
        Step::JoinDeclUp { .. } | Step::JoinDeclDown { .. } => Ok(have_same_decls(upper, lower)),
        Step::Share { .. } => may_share(alloc, items, upper, lower),
    }
}

/// Whether a step of two rules is one of a sheet of these items.
#[tactic(auto, using(crate::proofs::Joins::join_is, crate::proofs::Joins::not_in_order, crate::proofs::Joins::no_upper, crate::proofs::Joins::no_lower))]
fn can_join(
    alloc: Global,
    items: &[Item],
    step: &Step,
    upper: u32,
    lower: u32,
) -> Result<bool, AllocError>
    requires first { upper ≡ first_item step.now }
    requires last { lower ≡ last_item step.now }
    requires join { IsJoinKind step.now }
    ensures { IfOk result (λ can. IsTrue can ↔ HasStep items.now step.now) }
{
    if upper >= lower {
        return Ok(false);
    }
    match find_rule(items, upper) {
        None => Ok(false),
        Some(above) => match find_rule(items, lower) {
            None => Ok(false),
            Some(below) => may_join(alloc, items, step, above, below),
        },
    }
}

/// Whether a cut is one of a sheet of these items.
#[tactic(auto, using(crate::proofs::Joins::no_rule_to_cut))]
fn can_cut(items: &[Item], step: &Step) -> bool
    requires cut { IsCutKind step.now }
    ensures { IsTrue result ↔ HasStep items.now step.now }
{
    match *step {
        Step::CutDecl { item, decl } => match find_rule(items, item) {
            Some(rule) => can_cut_decl(items, item, rule, decl),
            None => false,
        },
        Step::CutSel { item, sel } => match find_rule(items, item) {
            Some(rule) => can_cut_selector(items, item, rule, sel),
            None => false,
        },
        _ => unreachable!(),
    }
}

/// Whether a step is one of a sheet. The time is that of a look at each pair that a cut takes and each item, at each two
/// declarations of the rules of a join, and at their selectors. `Err(AllocError)` if memory is short: many selectors are
/// compared as sets.
pub fn is_step(alloc: Global, items: &[Item], step: &Step) -> Result<bool, AllocError>
    ensures { IfOk result (λ is. IsTrue is ↔ HasStep items.now step.now) }
{
    match *step {
        Step::CutDecl { .. } | Step::CutSel { .. } => Ok(can_cut(items, step)),
        Step::JoinSelUp { upper, lower }
        | Step::JoinSelDown { upper, lower }
        | Step::JoinDeclUp { upper, lower }
        | Step::JoinDeclDown { upper, lower }
        | Step::Share { upper, lower } => can_join(alloc, items, step, upper, lower),
    }
}

//! What becomes of the items that a step takes, by its kind.

ghost use Rattle.std.specs.Prelude.{◌≡◌, ◌++◌, ◌<◌, ◌^◌, ◌∷◌, [], IfOk, OnOk, length};
ghost use Rattle.step_savings.specs.CutParts.{HasPart};
ghost use Rattle.order_laws.specs.Edits as edits;
ghost use Rattle.order_laws.specs.Slots.{new_items};
ghost use Rattle.step_laws.specs.StepEdits as kinds;
ghost use Rattle.step_laws.specs.Steps.{edit_of};

use crate::parts::{push_left, without_decls};
use css_model::{Item, Rule};
use rule_parts::{
    both_decls, both_selectors, copied_decls, copied_selectors, other_decls, other_selectors,
    shared,
};
use std::alloc::{AllocError, Global};
use std::marker::Model;
use step_laws::Step;

/// The item of this number becomes these items.
#[derive(Debug, Drop)]
pub struct Change {
    /// The number of the item, from 0.
    pub at: u32,
    /// What takes its place, in order.
    pub by: Vec<Item>,
}

impl Model for Change {
    ghost Value = { edits.Change };

    ghost view = { λ c. record { at = c.at; by = c.by.items } };
}

/// One item is changed.
fn one_change(alloc: Global, at: u32, by: Vec<Item>) -> Result<Vec<Change>, AllocError>
    ensures { IfOk result (λ changes. changes.items ≡ record { at = at; by = by.items } ∷ []) }
{
    let changes = vec![in alloc; Change { at, by }]?;
    Ok(changes)
}

/// Two items are changed.
fn two_changes(
    alloc: Global,
    upper: u32,
    above: Vec<Item>,
    lower: u32,
    below: Vec<Item>,
) -> Result<Vec<Change>, AllocError>
    ensures { IfOk result (λ changes. changes.items ≡ record { at = upper; by = above.items } ∷ record { at = lower; by = below.items } ∷ []) }
{
    let first = Change {
        at: upper,
        by: above,
    };
    let second = Change {
        at: lower,
        by: below,
    };
    let changes = vec![in alloc; first, second]?;
    Ok(changes)
}

fn cut_decl(alloc: Global, item: u32, decl: u32, rule: &Rule) -> Result<Vec<Change>, AllocError>
    requires { decl < length rule.now.decls }
    ensures { IfOk result (λ changes. changes.items ≡ (kinds.cut_decl item decl rule.now).changes) }
{
    let selectors = copied_selectors(alloc, &rule.selectors)?;
    let decls = other_decls(alloc, &rule.decls, decl)?;
    let by = push_left(Vec::new(alloc), Rule { selectors, decls })?;
    one_change(alloc, item, by)
}

fn cut_selector(alloc: Global, item: u32, sel: u32, rule: &Rule) -> Result<Vec<Change>, AllocError>
    requires { sel < length rule.now.selectors }
    ensures { IfOk result (λ changes. changes.items ≡ (kinds.cut_selector item sel rule.now).changes) }
{
    let selectors = other_selectors(alloc, &rule.selectors, sel)?;
    let decls = copied_decls(alloc, &rule.decls)?;
    let by = push_left(Vec::new(alloc), Rule { selectors, decls })?;
    one_change(alloc, item, by)
}

fn join_selectors_up(
    alloc: Global,
    x: u32,
    upper: &Rule,
    y: u32,
    lower: &Rule,
) -> Result<Vec<Change>, AllocError>
    ensures { IfOk result (λ changes. changes.items ≡ (kinds.join_selectors_up x y upper.now lower.now).changes) }
{
    let selectors = copied_selectors(alloc, &upper.selectors)?;
    let decls = both_decls(alloc, upper, lower)?;
    let above = vec![in alloc; Item::Rule(Rule { selectors, decls })]?;
    two_changes(alloc, x, above, y, Vec::new(alloc))
}

fn join_selectors_down(
    alloc: Global,
    x: u32,
    upper: &Rule,
    y: u32,
    lower: &Rule,
) -> Result<Vec<Change>, AllocError>
    ensures { IfOk result (λ changes. changes.items ≡ (kinds.join_selectors_down x y upper.now lower.now).changes) }
{
    let selectors = copied_selectors(alloc, &lower.selectors)?;
    let decls = both_decls(alloc, upper, lower)?;
    let below = vec![in alloc; Item::Rule(Rule { selectors, decls })]?;
    two_changes(alloc, x, Vec::new(alloc), y, below)
}

fn join_decls_up(
    alloc: Global,
    x: u32,
    upper: &Rule,
    y: u32,
    lower: &Rule,
) -> Result<Vec<Change>, AllocError>
    ensures { IfOk result (λ changes. changes.items ≡ (kinds.join_decls_up x y upper.now lower.now).changes) }
{
    let selectors = both_selectors(alloc, upper, lower)?;
    let decls = copied_decls(alloc, &upper.decls)?;
    let above = vec![in alloc; Item::Rule(Rule { selectors, decls })]?;
    two_changes(alloc, x, above, y, Vec::new(alloc))
}

fn join_decls_down(
    alloc: Global,
    x: u32,
    upper: &Rule,
    y: u32,
    lower: &Rule,
) -> Result<Vec<Change>, AllocError>
    ensures { IfOk result (λ changes. changes.items ≡ (kinds.join_decls_down x y upper.now lower.now).changes) }
{
    let selectors = both_selectors(alloc, upper, lower)?;
    let decls = copied_decls(alloc, &lower.decls)?;
    let below = vec![in alloc; Item::Rule(Rule { selectors, decls })]?;
    two_changes(alloc, x, Vec::new(alloc), y, below)
}

fn share(
    alloc: Global,
    x: u32,
    upper: &Rule,
    y: u32,
    lower: &Rule,
) -> Result<Vec<Change>, AllocError>
    ensures { IfOk result (λ changes. changes.items ≡ (kinds.share x y upper.now lower.now).changes) }
{
    let made = shared(alloc, upper, lower)?;
    let above = push_left(Vec::new(alloc), without_decls(alloc, &made.decls, upper)?)?;
    let rest = without_decls(alloc, &made.decls, lower)?;
    let below = push_left(vec![in alloc; Item::Rule(made)]?, rest)?;
    two_changes(alloc, x, above, y, below)
}

/// What becomes of the items that a step takes: of an upper and a lower rule, or of one that is cut. That one is then
/// both here.
pub(crate) fn changes_of(
    alloc: Global,
    step: &Step,
    upper: &Rule,
    lower: &Rule,
) -> Result<Vec<Change>, AllocError>
    requires { HasPart step.now upper.now }
    ensures { IfOk result (λ changes. changes.items ≡ (edit_of step.now upper.now lower.now).changes) }
{
    match *step {
        Step::CutDecl { item, decl } => cut_decl(alloc, item, decl, upper),
        Step::CutSel { item, sel } => cut_selector(alloc, item, sel, upper),
        Step::JoinSelUp { upper: x, lower: y } => join_selectors_up(alloc, x, upper, y, lower),
        Step::JoinSelDown { upper: x, lower: y } => join_selectors_down(alloc, x, upper, y, lower),
        Step::JoinDeclUp { upper: x, lower: y } => join_decls_up(alloc, x, upper, y, lower),
        Step::JoinDeclDown { upper: x, lower: y } => join_decls_down(alloc, x, upper, y, lower),
        Step::Share { upper: x, lower: y } => share(alloc, x, upper, y, lower),
    }
}

/// Puts copies of items after those of a sheet.
fn push_items(items: &mut Vec<Item>, more: &[Item]) -> Result<(), AllocError>
    ensures { OnOk result (items.new.items ≡ items.old.items ++ more.now) }
{
    for item in more {
        items.push(item.copy()?)?;
    }
    Ok(())
}

/// Puts what takes the place of an item after the items of a sheet.
fn push_instead(
    items: &mut Vec<Item>,
    changes: &[Change],
    number: u32,
    item: &Item,
) -> Result<(), AllocError>
    ensures { OnOk result (items.new.items ≡ items.old.items ++ edits.instead changes.now number item.now) }
{
    let mut rest = changes;
    'rest: while let Some((change, others)) = rest.split_first() {
        if change.at == number {
            return push_items(items, &change.by);
        }
        rest = others;
    }
    items.push(item.copy()?)?;
    Ok(())
}

/// The items with what takes the places of those that are changed.
pub(crate) fn changed(
    alloc: Global,
    changes: &[Change],
    items: &[Item],
) -> Result<Vec<Item>, AllocError>
    requires { length items.now < 2 ^ 32 }
    ensures { IfOk result (λ new. new.items ≡ new_items (edits.slots_from 0 changes.now items.now)) }
{
    let mut new = Vec::with_capacity(alloc, items.len())?;
    let mut number: u32 = 0;
    let mut rest = items;
    'rest: while let Some((item, others)) = rest.split_first() {
        push_instead(&mut new, changes, number, item)?;
        number += 1;
        rest = others;
    }
    Ok(new)
}

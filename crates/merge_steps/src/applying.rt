//! The sheet that a step makes.

ghost use Rattle.std.specs.Prelude.{◌≡◌, ◌≤◌, IfOk, length};
ghost use Rattle.css_model.specs.Sheets.Limits.{max_items};
ghost use Rattle.order_laws.specs.Edits.{Edit, edited};
ghost use Rattle.step_laws.specs.Steps.{HasStep, IsStep};

use crate::edits::{Change, changed, changes_of};
use css_model::{Item, Sheet};
use std::alloc::{AllocError, Global};
use step_laws::Step;
use step_savings::{items_of, rule_at};

/// What becomes of the items that a step of a sheet takes, by their numbers. There is one item, or two, the upper one
/// first. The memory is that of what comes. `AllocError` where memory runs out.
#[tactic(auto, using(step_savings::proofs::ForCallers::first_rule, step_savings::proofs::ForCallers::last_rule, step_savings::proofs::ForCallers::has_part, step_savings::proofs::ForCallers::edit_is))]
pub fn changes(alloc: Global, items: &[Item], step: &Step) -> Result<Vec<Change>, AllocError>
    requires { HasStep items.now step.now }
    ensures { IfOk result (λ changes. (e : Edit) → IsStep items.now step.now e → changes.items ≡ e.changes) }
{
    let (first, last) = items_of(step);
    let upper = rule_at(items, first);
    let lower = rule_at(items, last);
    changes_of(alloc, step, upper, lower)
}

/// The sheet after one of its steps: a copy, with what the step makes of its rules in their places. `AllocError` where
/// memory runs out.
#[tactic(auto, using(step_savings::proofs::ForCallers::first_rule, step_savings::proofs::ForCallers::last_rule, step_savings::proofs::ForCallers::has_part, step_savings::proofs::ForCallers::edited_is))]
pub fn apply(alloc: Global, items: &[Item], step: &Step) -> Result<Sheet, AllocError>
    requires is_step { HasStep items.now step.now }
    requires few_items { length items.now ≤ max_items }
    ensures { IfOk result (λ new. (e : Edit) → IsStep items.now step.now e → new.items ≡ edited e items.now) }
{
    let (first, last) = items_of(step);
    let upper = rule_at(items, first);
    let lower = rule_at(items, last);
    let changes = changes_of(alloc, step, upper, lower)?;
    let items = changed(alloc, &changes, items)?;
    Ok(Sheet { items })
}

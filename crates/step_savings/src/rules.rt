//! The rules of a step.

ghost use Rattle.std.specs.Prelude.{◌≡◌, Some, slice_get};
ghost use Rattle.css_model.specs.declared.sheet.Item.TheVariants as item;
ghost use Rattle.css_model.specs.Sheets.RuleParts.{RuleParts};
ghost use Rattle.step_laws.specs.Steps.{first_item, last_item};

use css_model::{Item, Rule};
use step_laws::Step;

/// The numbers of the first and the last item of a step, from 0. For a cut both are its rule's.
pub fn items_of(step: &Step) -> (u32, u32)
    ensures { result ≡ (first_item step.now, last_item step.now) }
{
    match *step {
        Step::CutDecl { item, .. } | Step::CutSel { item, .. } => (item, item),
        Step::JoinSelUp { upper, lower }
        | Step::JoinSelDown { upper, lower }
        | Step::JoinDeclUp { upper, lower }
        | Step::JoinDeclDown { upper, lower }
        | Step::Share { upper, lower } => (upper, lower),
    }
}

/// The rule of this number, from 0 among these items.
pub fn rule_at(items: &[Item], number: u32) -> &Rule
    requires { (r : RuleParts) × (slice_get items.now number ≡ Some (item.Rule r)) }
    ensures { slice_get items.now number ≡ Some (item.Rule result.now) }
{
    match items.get(number as usize) {
        Some(Item::Rule(rule)) => rule,
        _ => unreachable!(),
    }
}

//! Finds a rule by its number.

ghost use Rattle.std.specs.Prelude.{◌≡◌, IfNone, IfSome, Some, slice_get};
ghost use Rattle.css_model.specs.declared.sheet.Item.TheVariants as item;
ghost use Rattle.css_model.specs.Sheets.RuleParts.{RuleParts};

use css_model::{Item, Rule};

/// The rule of this number, from 0 among these items. `None` if there is no item of this number, or if it is not a rule.
pub fn find_rule(items: &[Item], number: u32) -> Option<&Rule>
    ensures some { IfSome result (λ rule. slice_get items.now number ≡ Some (item.Rule rule.now)) }
    ensures none { IfNone result ((r : RuleParts) → slice_get items.now number ≡ Some (item.Rule r) → ⊥) }
{
    match items.get(number as usize) {
        Some(Item::Rule(rule)) => Some(rule),
        _ => None,
    }
}

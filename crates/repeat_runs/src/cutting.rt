//! Cuts the parts of a rule that go.

ghost use Rattle.std.specs.Prelude.{◌≡◌, IfOk, Some, slice_get, slice_set};
ghost use Rattle.css_model.specs.declared.sheet.Item.TheVariants as item;
ghost use Rattle.css_model.specs.Sheets.RuleParts.{RuleParts};
ghost use Rattle.repeat_runs.specs.Running.{left_of};

use crate::choosing::Gone;
use crate::keeping::keep;
use css_model::{Item, Piece, Rule, Sheet};
use std::alloc::{AllocError, Global};
use std::mem;

/// Returns what is left of a rule.
fn cut(alloc: Global, rule: Rule, gone: &Gone) -> Result<Rule, AllocError>
    ensures { IfOk result (λ left. left ≡ left_of gone.now.decls.items gone.now.selectors.items rule) }
{
    let Rule { selectors, decls } = rule;
    let selectors = keep(alloc, selectors, &gone.selectors)?;
    let decls = keep(alloc, decls, &gone.decls)?;
    Ok(Rule { selectors, decls })
}

/// Takes out the rule of this number. An empty kept block is there instead.
fn lift_rule(items: &mut Vec<Item>, number: usize) -> Rule
    requires { (r : RuleParts) × (slice_get items.old.items number ≡ Some (item.Rule r)) }
    ensures rule { slice_get items.old.items number ≡ Some (item.Rule result) }
    ensures items { items.new.items ≡ slice_set items.old.items number (item.KeptBlock (record { start = 0; «end» = 0 })) }
{
    let empty = Item::KeptBlock(Piece { start: 0, end: 0 });
    match mem::replace(&mut items[number], empty) {
        Item::Rule(rule) => rule,
        _ => unreachable!(),
    }
}

/// Returns a sheet in which these parts of the rule of a number are gone.
pub(crate) fn cut_in(
    alloc: Global,
    sheet: Sheet,
    number: usize,
    gone: &Gone,
) -> Result<Sheet, AllocError>
    requires { (r : RuleParts) × (slice_get sheet.items number ≡ Some (item.Rule r)) }
    ensures { IfOk result (λ new. (r : RuleParts) → slice_get sheet.items number ≡ Some (item.Rule r)
        → new.items ≡ slice_set sheet.items number (item.Rule (left_of gone.now.decls.items gone.now.selectors.items r))) }
{
    let mut items = sheet.items;
    let rule = lift_rule(&mut items, number);
    items[number] = Item::Rule(cut(alloc, rule, gone)?);
    Ok(Sheet { items })
}

//! A sheet with tables of its rules. Each rule has its number as its order key.

ghost use Rattle.std.specs.Prelude.{◌≡◌, ◌↔◌, ◌≤◌, IfNone, IfOk, IfSome, Some, length, slice_get};
ghost use Rattle.std.specs.List.{Contains};
ghost use Rattle.css_model.specs.declared.sheet.Item.TheVariants as item;
ghost use Rattle.css_model.specs.Sheets.Limits.{max_items};
ghost use Rattle.css_model.specs.Sheets.RuleParts.{RuleParts};
ghost use Rattle.rule_tables.specs.Tables.{with_order_key};
ghost use Rattle.step_candidates.specs.Numbered as spec;

use css_model::{Decl, Item, Rule, Selector, Sheet};
use rule_tables::{
    OrderKeyedRules, Tables, has_both, order_keyed_rules_stand, rules_are_order_keyed,
};
use saved_bytes::KnownLengths;
use std::alloc::{AllocError, Global};

/// A sheet with tables of its rules by their numbers, and with the lengths of its texts.
#[derive(Clone, Copy, Debug)]
pub(crate) struct Numbered<'a> {
    pub(crate) alloc: Global,
    pub(crate) sheet: &'a Sheet,
    pub(crate) tables: &'a Tables,
    pub(crate) lengths: &'a KnownLengths<'a>,
}

/// Returns the numbers of items, from 0.
pub(crate) fn numbers(alloc: Global, items: &[Item]) -> Result<Vec<u64>, AllocError>
    requires { length items.now ≤ max_items }
    ensures { IfOk result (λ list. list.items ≡ spec.numbers items.now) }
{
    let mut list = Vec::with_capacity(alloc, items.len())?;
    let mut number: u64 = 0;
    let mut rest = items;
    'rest: while let Some((_, behind)) = rest.split_first() {
        list.push(number)?;
        number += 1;
        rest = behind;
    }
    Ok(list)
}

/// Returns the rule of this number, or `None` if no rule has it.
pub(crate) fn find_rule(sheet: &Sheet, number: u64) -> Option<&Rule>
    ensures some { IfSome result (λ rule. slice_get sheet.now.items number ≡ Some (item.Rule rule.now)) }
    ensures none { IfNone result ((r : RuleParts) → slice_get sheet.now.items number ≡ Some (item.Rule r) → ⊥) }
{
    match sheet.items.get(number as usize) {
        Some(Item::Rule(rule)) => Some(rule),
        _ => None,
    }
}

/// Returns the rule with this order key, or `None` if no rule has it.
fn rule_with(sheet: &Sheet, order_key: u64) -> Option<&Rule>
    ensures some { IfSome result (λ rule. (r : RuleParts) → Contains (spec.numbered sheet.now.items) (with_order_key r order_key) ↔ (r ≡ rule.now)) }
    ensures none { IfNone result ((r : RuleParts) → Contains (spec.numbered sheet.now.items) (with_order_key r order_key) → ⊥) }
{
    rules_are_order_keyed();
    order_keyed_rules_stand();
    find_rule(sheet, order_key)
}

impl OrderKeyedRules for Numbered<'_> {
    ghost use Rattle.step_candidates.specs.Numbered as spec;

    ghost rules = { λ n. spec.numbered n.sheet.now.items };

    fn has_pair(&self, order_key: u64, selector: &Selector, decl: &Decl) -> bool {
        match rule_with(self.sheet, order_key) {
            Some(rule) => has_both(rule, selector, decl),
            None => false,
        }
    }
}

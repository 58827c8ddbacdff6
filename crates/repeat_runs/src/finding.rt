//! Finds the rule of a sheet that has no other one.

ghost use Rattle.std.specs.Prelude.{◌≡◌, ◌↔◌, IfNone, IfSome, IsTrue};
ghost use Rattle.css_model.specs.Sheets.KeptItems as items;
ghost use Rattle.repeat_runs.specs.OneRule.{HasNoOnlyRule, IsOnlyRule};
ghost use Rattle.run_laws.specs.Runs.{AreKept};

use css_model::Item;

/// Whether an item is no rule.
fn is_kept(item: &Item) -> bool
    ensures { result ≡ items.is_kept item.now }
{
    match item {
        Item::Rule(_) => false,
        Item::KeptRule(_) | Item::KeptBlock(_) => true,
    }
}

/// Whether no item is a rule.
fn are_kept(items: &[Item]) -> bool
    ensures { IsTrue result ↔ AreKept items.now }
{
    let mut rest = items;
    'rest: while let Some((first, others)) = rest.split_first() {
        if !is_kept(first) {
            return false;
        }
        rest = others;
    }
    true
}

/// Returns the number of the item that is a rule, from 0. It returns `None` if no item is, or another one is too.
pub(crate) fn only_rule(items: &[Item]) -> Option<usize>
    ensures some { IfSome result (λ number. IsOnlyRule items.now number) }
    ensures none { IfNone result (HasNoOnlyRule items.now) }
{
    let mut number: usize = 0;
    let mut rest = items;
    'rest: while let Some((first, others)) = rest.split_first() {
        if !is_kept(first) {
            return if are_kept(others) { Some(number) } else { None };
        }
        number += 1;
        rest = others;
    }
    None
}

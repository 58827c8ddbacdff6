//! What is known of two rules without a look at all their parts: that they have no selector in common.
//! `known` takes what was noted of them, and `masks` one word of each of them, which says more of their steps.
//! Many selectors of a rule are looked for in the tables.

ghost use Rattle.std.specs.Prelude.{◌≡◌, ◌<◌, Some, length, slice_get, true};
ghost use Rattle.css_model.specs.declared.sheet.Item.TheVariants as item;
ghost use Rattle.css_model.specs.Sheets.RuleParts.{RuleParts};
ghost use Rattle.step_savings.specs.Apart.{AreApart, RulesApart};
ghost use Rattle.next_step.specs.Viewed.{IsFocus, IsView};

pub(crate) mod known;
pub(crate) mod masks;

use crate::apart::masks::share_no_selector;
use crate::view::{Focus, View};
use css_model::Rule;
use rule_parts::find_rule;
use rule_tables::rules_are_order_keyed;

/// Rules with fewer selectors than this are not looked for in the tables.
const FEW: usize = 16;

/// Whether the rule of this number is known to have no selector of another rule, by the tables.
fn has_none_of(view: &View<'_>, number: u32, rule: &Rule) -> bool
    requires view { IsView view.now }
    requires there { number < length view.now.indexed.now.items }
    ensures { result ≡ true → (r : RuleParts) → slice_get view.now.indexed.now.items number ≡ Some (item.Rule r) → AreApart r rule.now }
{
    rules_are_order_keyed();
    let _marks = view.indexed.marks();
    let order_key = view.indexed.mark(number).order_key;
    view.tables.has_none_of(order_key, &rule.selectors)
}

/// Whether the focus and the rule of another number are known to have no selector in common, by the tables.
/// Those of the rule with fewer selectors are looked for. Of few selectors none is looked for.
fn are_apart_by_tables(view: &View<'_>, focus: &Focus<'_>, other: u32, rule: &Rule) -> bool
    requires view { IsView view.now }
    requires focus { IsFocus view.now focus.now }
    requires rule { slice_get view.now.indexed.now.items other ≡ Some (item.Rule rule.now) }
    ensures { result ≡ true → AreApart focus.now.rule.now rule.now }
{
    let own = focus.rule;
    let ours = own.selectors.len();
    let theirs = rule.selectors.len();
    if ours < FEW && theirs < FEW {
        return false;
    }
    if theirs < ours {
        has_none_of(view, focus.number, rule)
    } else {
        has_none_of(view, other, own)
    }
}

/// Whether the rule of another number is known to have no selector in common with the focus.
pub(crate) fn are_apart(view: &View<'_>, focus: &Focus<'_>, other: u32) -> bool
    requires view { IsView view.now }
    requires focus { IsFocus view.now focus.now }
    requires other { other < length view.now.indexed.now.items }
    ensures { result ≡ true → RulesApart view.now.indexed.now.items focus.now.number other }
{
    if share_no_selector(view.indexed, focus.number, other) {
        return true;
    }
    match find_rule(view.indexed.items(), other) {
        Some(rule) => are_apart_by_tables(view, focus, other, rule),
        None => false,
    }
}

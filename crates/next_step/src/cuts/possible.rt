//! Whether a step is one of an indexed sheet, with tables of its rules.

ghost use Rattle.std.specs.Prelude.{◌≡◌, ◌↔◌, ◌≤◌, IfNone, IfOk, IfSome, IsTrue, true, length};
ghost use Rattle.std.specs.List.{Contains};
ghost use Rattle.css_model.specs.Sheets.Limits.{max_items};
ghost use Rattle.css_model.specs.Sheets.RuleParts.{RuleParts};
ghost use Rattle.rule_tables.specs.Tables.{Cover, with_order_key};
ghost use Rattle.step_laws.specs.declared.step.Step.TheVariants as kinds;
ghost use Rattle.step_laws.specs.Steps.{HasStep};
ghost use Rattle.next_step.specs.Marked.{rules_of};
ghost use Rattle.next_step.specs.Once.{DeclStandsOnce, PartStandsOnce, SelectorStandsOnce};

use crate::cuts::uncut::is_uncut_item;
use css_model::{Decl, Rule, Selector};
use indexed_sheet::IndexedSheet;
use merge_steps::is_step;
use rule_parts::find_rule;
use rule_tables::{
    OrderKeyedRules, Tables, can_lose_decl, can_lose_selector, decl_cuts_are_told, has_both,
    order_keyed_rules_stand, rules_are_order_keyed, selector_cuts_are_told,
};
use std::alloc::{AllocError, Global};
use step_laws::Step;

/// The rule with an order key, if there is one.
fn rule_with(indexed: &IndexedSheet, order_key: u64) -> Option<&Rule>
    requires { length indexed.now.items ≤ max_items }
    ensures some { IfSome result (λ rule. (r : RuleParts) → Contains (rules_of indexed.now) (with_order_key r order_key) ↔ (r ≡ rule.now)) }
    ensures none { IfNone result ((r : RuleParts) → Contains (rules_of indexed.now) (with_order_key r order_key) → ⊥) }
{
    rules_are_order_keyed();
    order_keyed_rules_stand();
    let _marks = indexed.marks();
    match indexed.number_of(order_key) {
        Some(number) => find_rule(indexed.items(), number),
        None => None,
    }
}

/// The rules of an indexed sheet, by their order keys.
#[derive(Clone, Copy, Debug)]
pub(crate) struct IndexedRules<'a> {
    pub indexed: &'a IndexedSheet,
    ghost few: { length indexed.now.items ≤ max_items },
}

impl OrderKeyedRules for IndexedRules<'_> {
    ghost use Rattle.next_step.specs.Marked.{rules_of};

    ghost rules = { λ r. rules_of r.indexed.now };

    fn has_pair(&self, order_key: u64, selector: &Selector, decl: &Decl) -> bool {
        match rule_with(self.indexed, order_key) {
            Some(rule) => has_both(rule, selector, decl),
            None => false,
        }
    }
}

/// Whether a declaration of a rule can be cut. `once` says that it is known to be in the rule once.
fn can_cut_decl(indexed: &IndexedSheet, tables: &Tables, number: u32, decl: u32, once: bool) -> bool
    requires few { length indexed.now.items ≤ max_items }
    requires cover { Cover tables.now (rules_of indexed.now) }
    requires once { once ≡ true → DeclStandsOnce indexed.now.items number decl }
    ensures { IsTrue result ↔ HasStep indexed.now.items (kinds.CutDecl number decl) }
{
    decl_cuts_are_told();
    let Some(rule) = find_rule(indexed.items(), number) else {
        return false;
    };
    let _marks = indexed.marks();
    let own = indexed.mark(number).order_key;
    let rules = IndexedRules { indexed };
    can_lose_decl(tables, &rules, own, rule, decl, once)
}

/// Whether a selector of a rule can be cut. `once` says that it is known to be in the rule once.
fn can_cut_selector(
    indexed: &IndexedSheet,
    tables: &Tables,
    number: u32,
    sel: u32,
    once: bool,
) -> bool
    requires few { length indexed.now.items ≤ max_items }
    requires cover { Cover tables.now (rules_of indexed.now) }
    requires once { once ≡ true → SelectorStandsOnce indexed.now.items number sel }
    ensures { IsTrue result ↔ HasStep indexed.now.items (kinds.CutSel number sel) }
{
    selector_cuts_are_told();
    let Some(rule) = find_rule(indexed.items(), number) else {
        return false;
    };
    let _marks = indexed.marks();
    let own = indexed.mark(number).order_key;
    let rules = IndexedRules { indexed };
    can_lose_selector(tables, &rules, own, rule, sel, once)
}

/// Whether a declaration of an item can be cut, as `can_cut_decl` says. Where it is known that no part can be, none is looked for.
fn is_decl_cut(indexed: &IndexedSheet, tables: &Tables, number: u32, decl: u32, once: bool) -> bool
    requires few { length indexed.now.items ≤ max_items }
    requires cover { Cover tables.now (rules_of indexed.now) }
    requires once { once ≡ true → DeclStandsOnce indexed.now.items number decl }
    ensures { IsTrue result ↔ HasStep indexed.now.items (kinds.CutDecl number decl) }
{
    if is_uncut_item(indexed, number) {
        return false;
    }
    can_cut_decl(indexed, tables, number, decl, once)
}

/// Whether a selector of an item can be cut, as `can_cut_selector` says. Where it is known that no part can be, none is looked for.
fn is_selector_cut(
    indexed: &IndexedSheet,
    tables: &Tables,
    number: u32,
    sel: u32,
    once: bool,
) -> bool
    requires few { length indexed.now.items ≤ max_items }
    requires cover { Cover tables.now (rules_of indexed.now) }
    requires once { once ≡ true → SelectorStandsOnce indexed.now.items number sel }
    ensures { IsTrue result ↔ HasStep indexed.now.items (kinds.CutSel number sel) }
{
    if is_uncut_item(indexed, number) {
        return false;
    }
    can_cut_selector(indexed, tables, number, sel, once)
}

/// Whether a step is one of an indexed sheet. `Err(AllocError)` if memory is short.
///
/// `once` says that the part that the step cuts is known to be in its rule once. Then it is not looked for among the others.
/// The time is that of the parts of its rules, and of a cut that of the rules with these parts.
pub(crate) fn is_step_of(
    alloc: Global,
    indexed: &IndexedSheet,
    tables: &Tables,
    step: &Step,
    once: bool,
) -> Result<bool, AllocError>
    requires few { length indexed.now.items ≤ max_items }
    requires cover { Cover tables.now (rules_of indexed.now) }
    requires once { once ≡ true → PartStandsOnce indexed.now.items step.now }
    ensures { IfOk result (λ is. IsTrue is ↔ HasStep indexed.now.items step.now) }
{
    match *step {
        Step::CutDecl { item, decl } => Ok(is_decl_cut(indexed, tables, item, decl, once)),
        Step::CutSel { item, sel } => Ok(is_selector_cut(indexed, tables, item, sel, once)),
        _ => is_step(alloc, indexed.items(), step),
    }
}

//! Rules of which no part can be cut.

ghost use Rattle.std.specs.Prelude.{◌≡◌, ◌<◌, Some, length, slice_get, true};
ghost use Rattle.css_model.specs.declared.sheet.Item.TheVariants as item;
ghost use Rattle.indexed_sheet.specs.Facts.{HasNoCut};
ghost use Rattle.next_step.specs.Once.{DeclsStandOnce, SelectorsStandOnce};

use css_model::Rule;
use indexed_sheet::IndexedSheet;
use pending_laws::own_pairs_have_no_cut;
use rule_parts::find_rule;
use rule_tables::{decl_cuts_are_told, selector_cuts_are_told};

/// Whether a rule has a selector and a declaration.
fn has_parts(rule: &Rule) -> bool
    ensures { result ≡ true → (0 < length rule.now.selectors) × (0 < length rule.now.decls) }
{
    !rule.selectors.is_empty() && !rule.decls.is_empty()
}

/// Whether it is known that no part of the rule of this number can be cut.
fn is_noted_uncut(indexed: &IndexedSheet, number: u32, rule: &Rule) -> bool
    requires { slice_get indexed.now.items number ≡ Some (item.Rule rule.now) }
    ensures { result ≡ true → HasNoCut indexed.now.items number }
{
    own_pairs_have_no_cut();
    let facts = indexed.facts(number);
    if facts.no_cut {
        return true;
    }
    if facts.own_pairs {
        return has_parts(rule);
    }
    false
}

/// Whether the item of this number is a rule of which it is known that no part can be cut.
pub(crate) fn is_uncut_item(indexed: &IndexedSheet, number: u32) -> bool
    ensures { result ≡ true → HasNoCut indexed.now.items number }
{
    match find_rule(indexed.items(), number) {
        Some(rule) => is_noted_uncut(indexed, number, rule),
        None => false,
    }
}

/// Whether it is known that no part of the rule of this number can be cut. Then each of its parts is in it once.
pub(crate) fn is_known_uncut(indexed: &IndexedSheet, number: u32, rule: &Rule) -> bool
    requires { slice_get indexed.now.items number ≡ Some (item.Rule rule.now) }
    ensures uncut { result ≡ true → HasNoCut indexed.now.items number }
    ensures once { result ≡ true → DeclsStandOnce indexed.now.items number }
    ensures selectors_once { result ≡ true → SelectorsStandOnce indexed.now.items number }
{
    decl_cuts_are_told();
    selector_cuts_are_told();
    let _marks = indexed.marks();
    is_noted_uncut(indexed, number, rule)
}

//! Whether pairs and kept items weigh.

ghost use Rattle.std.specs.Prelude.{◌≡◌, ◌↔◌, ◌&&◌, IsTrue};
ghost use Rattle.std.specs.Bool.{beq};
ghost use Rattle.std.specs.List.{list_any};
ghost use Rattle.css_model.specs.Cascade.Family.{related};
ghost use Rattle.css_model.specs.Cascade.Order.{Pair, WeighsKept};
ghost use Rattle.css_model.specs.Documents.Specificity.{specificity_of};
ghost use Rattle.order_laws.specs.Comparing as order;
ghost use Rattle.selector_laws.specs.Limits.{KeepsLimits};
ghost use Rattle.window_order.specs.Weighing.{DeclsWeigh};

use css_model::{Decl, Item, Selector, specificity};
use order_laws::weighing_is_decided;
use related_props::related;

/// Whether two declarations weigh: they differ, their names are related, and their importance is equal.
pub fn decls_weigh(first: &Decl, second: &Decl) -> bool
    ensures { IsTrue result ↔ DeclsWeigh first.now second.now }
{
    if first.important != second.important {
        return false;
    }
    if !related(&first.name, &second.name) {
        return false;
    }
    *first != *second
}

/// Whether two selectors have equal specificity.
pub fn same_specificity(first: &Selector, second: &Selector) -> bool
    requires first { KeepsLimits first.now }
    requires second { KeepsLimits second.now }
    ensures { IsTrue result ↔ (specificity_of first.now ≡ specificity_of second.now) }
{
    specificity(first) == specificity(second)
}

/// Whether a declaration of a kept rule weighs with the pairs of a declaration.
fn weighs_one(decl: &Decl, kept: &Decl) -> bool
    ensures { result ≡ (related decl.now.name kept.now.name && beq decl.now.important kept.now.important) }
{
    related(&decl.name, &kept.name) && decl.important == kept.important
}

/// Whether one of some declarations of a kept rule weighs with the pairs of a declaration.
fn weighs_some(decl: &Decl, kept: &[Decl]) -> bool
    ensures { result ≡ list_any (λ d. related decl.now.name d.name && beq decl.now.important d.important) kept.now }
{
    kept.iter().any(|kept| weighs_one(decl, kept))
}

/// Whether an item weighs with the pairs of a declaration, by a test that computes.
fn item_weighs(decl: &Decl, item: &Item) -> bool
    ensures { (p : Pair) → p.decl ≡ decl.now → result ≡ order.weighs_kept p item.now }
{
    match item {
        Item::Rule(_) => false,
        Item::KeptRule(rule) => weighs_some(decl, &rule.decls),
        Item::KeptBlock(_) => true,
    }
}

/// Whether an item is kept and weighs with the pairs of a declaration.
pub fn weighs_kept(decl: &Decl, item: &Item) -> bool
    ensures { (p : Pair) → p.decl ≡ decl.now → IsTrue result ↔ WeighsKept p item.now }
{
    weighing_is_decided();
    item_weighs(decl, item)
}

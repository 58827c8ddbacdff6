//! Whether a pair is in items.

ghost use Rattle.std.specs.Prelude.{◌≡◌, ◌↔◌, IsTrue, ◌∷◌, []};
ghost use Rattle.css_model.specs.Cascade.Order.{HasPair, IsBefore};
ghost use Rattle.order_laws.specs.Members.{has_decl};
ghost use Rattle.window_order.specs.Standing as standing;

use crate::pair::PairRef;
use css_model::{Decl, DeclItem, Item, Rule};
use rule_parts::{has_decl, has_selector, is_same_decl};

/// Whether a pair is in a rule. The shorter list is looked through first.
fn is_in_rule(rule: &Rule, p: &PairRef<'_>) -> bool
    ensures { result ≡ standing.is_in_rule rule.now p.now }
{
    if rule.selectors.len() <= rule.decls.len() {
        has_selector(&rule.selectors, p.selector) && has_decl(&rule.decls, p.decl)
    } else {
        has_decl(&rule.decls, p.decl) && has_selector(&rule.selectors, p.selector)
    }
}

/// Whether a pair is in an item.
pub(crate) fn is_in_item(item: &Item, p: &PairRef<'_>) -> bool
    ensures { result ≡ standing.is_in_item p.now item.now }
{
    match item {
        Item::Rule(rule) => is_in_rule(rule, p),
        _ => false,
    }
}

/// Whether the last of a declaration is before the last of another one.
pub(crate) fn decl_before(decls: &[DeclItem], first: &Decl, second: &Decl) -> bool
    ensures { result ≡ standing.decl_before decls.now first.now second.now }
{
    let mut rest = decls;
    'rest: while let Some((decl, behind)) = rest.split_first() {
        if is_same_decl(&decl.decl, first) && !has_decl(behind, first) {
            return has_decl(behind, second);
        }
        rest = behind;
    }
    false
}

/// Whether in a rule the last of the first pair's declaration is before the last of the second's.
fn decls_before(rule: &Rule, p: &PairRef<'_>, q: &PairRef<'_>) -> bool
    ensures { result ≡ standing.decl_before rule.now.decls p.now.decl q.now.decl }
{
    decl_before(&rule.decls, p.decl, q.decl)
}

/// Whether the last of the first of two pairs is before the last of the second in an item that has both.
pub(crate) fn comes_before_there(item: &Item, p: &PairRef<'_>, q: &PairRef<'_>) -> bool
    requires first { HasPair (item.now ∷ []) p.now }
    requires second { HasPair (item.now ∷ []) q.now }
    ensures { IsTrue result ↔ IsBefore (item.now ∷ []) p.now q.now }
{
    match item {
        Item::Rule(rule) => decls_before(rule, p, q),
        _ => false,
    }
}

/// Whether the last of the first of two pairs is before the last of the second in an item, by whether the item has the
/// second.
pub(crate) fn comes_before_if(item: &Item, p: &PairRef<'_>, q: &PairRef<'_>, second: bool) -> bool
    requires first { HasPair (item.now ∷ []) p.now }
    requires second { IsTrue second ↔ HasPair (item.now ∷ []) q.now }
    ensures { IsTrue result ↔ IsBefore (item.now ∷ []) p.now q.now }
{
    if !second {
        return false;
    }
    comes_before_there(item, p, q)
}

//! Whether a rule can lose a part: whether the part is in the rule again, or all its pairs are in rules with other order keys.

ghost use Rattle.std.specs.Prelude.{◌≡◌, ◌↔◌, IsTrue, map, true};
ghost use Rattle.std.specs.List.{Contains};
ghost use Rattle.css_model.specs.declared.sheet.Decl as declared;
ghost use Rattle.css_model.specs.Documents.SelectorParts.{SelectorParts};
ghost use Rattle.rule_tables.specs.Losing.{CanLoseDecl, CanLoseSelector, HasDeclOnce, HasSelectorOnce};
ghost use Rattle.rule_tables.specs.Pairs as pairs;
ghost use Rattle.rule_tables.specs.Tables as spec;

use crate::members::{is_decl_again, is_selector_again};
use crate::pairs::OrderKeyedRules;
use crate::tables::Tables;
use css_model::{Decl, DeclItem, Rule, SelItem, Selector};

/// Whether each of the selectors is with the declaration in a rule with another order key than `own`.
fn all_stand_with_decl<R: OrderKeyedRules>(
    tables: &Tables,
    rules: &R,
    own: u64,
    selectors: &[SelItem],
    decl: &Decl,
) -> bool
    requires { spec.Cover tables.now (R.rules rules.now) }
    ensures { IsTrue result ↔ ((s : SelectorParts) → Contains (map (λ x. x.selector) selectors.now) s → pairs.AnotherHasBoth (R.rules rules.now) own s decl.now) }
{
    let mut rest = selectors;
    'rest: while let Some((first, behind)) = rest.split_first() {
        if !tables.is_elsewhere(rules, own, &first.selector, decl) {
            return false;
        }
        rest = behind;
    }
    true
}

/// Whether each of the declarations is with the selector in a rule with another order key than `own`.
fn all_stand_with_selector<R: OrderKeyedRules>(
    tables: &Tables,
    rules: &R,
    own: u64,
    selector: &Selector,
    decls: &[DeclItem],
) -> bool
    requires { spec.Cover tables.now (R.rules rules.now) }
    ensures { IsTrue result ↔ ((d : declared.Decl) → Contains (map (λ x. x.decl) decls.now) d → pairs.AnotherHasBoth (R.rules rules.now) own selector.now d) }
{
    let mut rest = decls;
    'rest: while let Some((first, behind)) = rest.split_first() {
        if !tables.is_elsewhere(rules, own, selector, &first.decl) {
            return false;
        }
        rest = behind;
    }
    true
}

/// Whether a rule with the order key `own` can lose its declaration of this number, from 0: whether it has the declaration
/// again, or each of its selectors is with the declaration in one of these rules that has another order key. The tables cover
/// the rules. `once` says that the rule is known to have the declaration once. It takes no memory. The time is that of the
/// declarations of the rule, and of the rules with this declaration.
pub fn can_lose_decl<R: OrderKeyedRules>(
    tables: &Tables,
    rules: &R,
    own: u64,
    rule: &Rule,
    decl: u32,
    once: bool,
) -> bool
    requires cover { spec.Cover tables.now (R.rules rules.now) }
    requires once { once ≡ true → HasDeclOnce rule.now decl }
    ensures { IsTrue result ↔ CanLoseDecl (R.rules rules.now) own rule.now decl }
{
    let Some(lost) = rule.decls.get(decl as usize) else {
        return false;
    };
    if is_decl_again(&rule.decls, decl, &lost.decl, once) {
        return true;
    }
    all_stand_with_decl(tables, rules, own, &rule.selectors, &lost.decl)
}

/// Whether a rule with the order key `own` can lose its selector of this number, from 0: whether it has the selector again, or
/// each of its declarations is with the selector in one of these rules that has another order key. The tables cover the rules.
/// `once` says that the rule is known to have the selector once. It takes no memory. The time is that of the selectors of the
/// rule, and of the rules with this selector.
pub fn can_lose_selector<R: OrderKeyedRules>(
    tables: &Tables,
    rules: &R,
    own: u64,
    rule: &Rule,
    sel: u32,
    once: bool,
) -> bool
    requires cover { spec.Cover tables.now (R.rules rules.now) }
    requires once { once ≡ true → HasSelectorOnce rule.now sel }
    ensures { IsTrue result ↔ CanLoseSelector (R.rules rules.now) own rule.now sel }
{
    let Some(lost) = rule.selectors.get(sel as usize) else {
        return false;
    };
    if is_selector_again(&rule.selectors, sel, &lost.selector, once) {
        return true;
    }
    all_stand_with_selector(tables, rules, own, &lost.selector, &rule.decls)
}

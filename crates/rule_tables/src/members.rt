//! Whether a rule has a selector or a declaration, and whether it has one twice.

ghost use Rattle.std.specs.Prelude.{◌≡◌, ◌↔◌, ◌+◌, ◌<◌, IsTrue, drop, length, map, true};
ghost use Rattle.std.specs.List.{Contains, remove};
ghost use Rattle.rule_tables.specs.Pairs as pairs;

use css_model::{Decl, DeclItem, Rule, SelItem, Selector};
use rule_parts::{has_decl, has_selector};

/// Whether a selector is among these.
fn is_selector_among(items: &[SelItem], selector: &Selector) -> bool
    ensures { IsTrue result ↔ Contains (map (λ x. x.selector) items.now) selector.now }
{
    has_selector(items, selector)
}

/// Whether a declaration is among these.
fn is_decl_among(items: &[DeclItem], decl: &Decl) -> bool
    ensures { IsTrue result ↔ Contains (map (λ x. x.decl) items.now) decl.now }
{
    has_decl(items, decl)
}

/// Whether a rule has a selector and a declaration.
pub fn has_both(rule: &Rule, selector: &Selector, decl: &Decl) -> bool
    ensures { IsTrue result ↔ pairs.HasBoth rule.now selector.now decl.now }
{
    is_selector_among(&rule.selectors, selector) && is_decl_among(&rule.decls, decl)
}

/// The declarations after the one of this number.
#[tactic(auto, using(std::proofs::lemmas::List::take_rest))]
fn decls_behind(items: &[DeclItem], number: usize) -> &[DeclItem]
    requires { number < length items.now }
    ensures { result.now ≡ drop (number + 1) items.now }
{
    &items[number + 1..]
}

/// The selectors after the one of this number.
#[tactic(auto, using(std::proofs::lemmas::List::take_rest))]
fn selectors_behind(items: &[SelItem], number: usize) -> &[SelItem]
    requires { number < length items.now }
    ensures { result.now ≡ drop (number + 1) items.now }
{
    &items[number + 1..]
}

/// Whether a declaration is in a rule at another number than this. `once` says that it is known not to be.
pub(crate) fn is_decl_again(decls: &[DeclItem], number: u32, decl: &Decl, once: bool) -> bool
    requires there { number < length decls.now }
    requires once { once ≡ true → Contains (map (λ x. x.decl) (remove decls.now number)) decl.now → ⊥ }
    ensures { IsTrue result ↔ Contains (map (λ x. x.decl) (remove decls.now number)) decl.now }
{
    if once {
        return false;
    }
    let number = number as usize;
    if is_decl_among(&decls[..number], decl) {
        return true;
    }
    is_decl_among(decls_behind(decls, number), decl)
}

/// Whether a selector is in a rule at another number than this. `once` says that it is known not to be.
pub(crate) fn is_selector_again(
    selectors: &[SelItem],
    number: u32,
    selector: &Selector,
    once: bool,
) -> bool
    requires there { number < length selectors.now }
    requires once { once ≡ true → Contains (map (λ x. x.selector) (remove selectors.now number)) selector.now → ⊥ }
    ensures { IsTrue result ↔ Contains (map (λ x. x.selector) (remove selectors.now number)) selector.now }
{
    if once {
        return false;
    }
    let number = number as usize;
    if is_selector_among(&selectors[..number], selector) {
        return true;
    }
    is_selector_among(selectors_behind(selectors, number), selector)
}

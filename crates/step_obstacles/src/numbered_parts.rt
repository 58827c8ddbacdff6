//! The parts of a rule, by their numbers.

ghost use Rattle.std.specs.Prelude.{◌≡◌, ◌<◌, ◌^◌, Some, length, slice_get};
ghost use Rattle.css_model.specs.declared.sheet.DeclItem as declared_decl;
ghost use Rattle.css_model.specs.declared.sheet.SelItem as declared_selector;

use css_model::{Decl, Rule, Selector};

/// How many selectors a rule has.
pub(crate) fn selector_count(rule: &Rule) -> u32
    requires { length rule.now.selectors < 2 ^ 32 }
    ensures { result ≡ length rule.now.selectors }
{
    rule.selectors.len() as u32
}

/// How many declarations a rule has.
pub(crate) fn decl_count(rule: &Rule) -> u32
    requires { length rule.now.decls < 2 ^ 32 }
    ensures { result ≡ length rule.now.decls }
{
    rule.decls.len() as u32
}

/// The selector of this number.
pub(crate) fn selector_of(rule: &Rule, number: u32) -> &Selector
    requires { (x : declared_selector.SelItem) × (slice_get rule.now.selectors number ≡ Some x) }
    ensures { (x : declared_selector.SelItem) → slice_get rule.now.selectors number ≡ Some x → result.now ≡ x.selector }
{
    match rule.selectors.get(number as usize) {
        Some(item) => &item.selector,
        None => unreachable!(),
    }
}

/// The declaration of this number.
pub(crate) fn decl_of(rule: &Rule, number: u32) -> &Decl
    requires { (x : declared_decl.DeclItem) × (slice_get rule.now.decls number ≡ Some x) }
    ensures { (x : declared_decl.DeclItem) → slice_get rule.now.decls number ≡ Some x → result.now ≡ x.decl }
{
    match rule.decls.get(number as usize) {
        Some(item) => &item.decl,
        None => unreachable!(),
    }
}

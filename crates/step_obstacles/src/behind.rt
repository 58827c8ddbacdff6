//! Whether all pairs of a rule are after a window too. Such a rule may go, since none of them comes last in it.

ghost use Rattle.std.specs.Prelude.{◌≡◌};
ghost use Rattle.std.specs.List.{list_all};
ghost use Rattle.step_obstacles.specs.Turns as turns;
ghost use Rattle.window_order.specs.Reversed.{behind_of};
ghost use Rattle.window_order.specs.Standing.{stands};

use css_model::{Decl, DeclItem, Rule, SelItem};
use window_order::{Window, pair_of};

/// Whether the pair of a selector and a declaration is after the window.
fn is_behind(window: &Window<'_>, selector: &SelItem, decl: &Decl) -> bool
    ensures { result ≡ stands (behind_of window.now) (turns.pair_of selector.now decl.now) }
{
    window.is_behind(&pair_of(&selector.selector, decl))
}

/// Whether the pairs of a declaration and each of some selectors are after the window.
fn are_behind(window: &Window<'_>, selectors: &[SelItem], decl: &Decl) -> bool
    ensures { result ≡ list_all (λ s. stands (behind_of window.now) (turns.pair_of s decl.now)) selectors.now }
{
    selectors
        .iter()
        .all(|selector| is_behind(window, selector, decl))
}

/// Whether the pairs of each of some declarations and each of some selectors are after the window.
fn all_are_behind(window: &Window<'_>, selectors: &[SelItem], decls: &[DeclItem]) -> bool
    ensures { result ≡ list_all (λ d. list_all (λ s. stands (behind_of window.now) (turns.pair_of s d.decl)) selectors.now) decls.now }
{
    decls
        .iter()
        .all(|item| are_behind(window, selectors, &item.decl))
}

/// Whether all pairs of a rule are after the window.
pub(crate) fn rule_is_behind(window: &Window<'_>, rule: &Rule) -> bool
    ensures { result ≡ list_all (λ d. list_all (λ s. stands (behind_of window.now) (turns.pair_of s d.decl)) rule.now.selectors) rule.now.decls }
{
    all_are_behind(window, &rule.selectors, &rule.decls)
}

/// Whether a window is that of a cut that takes a whole rule.
pub(crate) fn takes_rule(window: &Window<'_>, rule: &Rule) -> bool {
    window.start == window.middle && (rule.decls.len() == 1 || rule.selectors.len() == 1)
}

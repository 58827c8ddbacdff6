//! Whether selectors and declarations are among those of a rule, and whether two rules have the same.

ghost use Rattle.std.specs.Prelude.{◌≡◌, ◌↔◌, IfOk, IsTrue, map};
ghost use Rattle.std.specs.List.{list_any};
ghost use Rattle.css_model.specs.Sheets.StyleRule.{HaveSameSelectors};
ghost use Rattle.order_laws.specs.Members as members;
ghost use Rattle.step_laws.specs.Steps.{HaveSameDecls};

use css_model::{DeclItem, Rule};
use rule_parts::{are_selectors_among, has_decl, is_same_decl};
use std::alloc::{AllocError, Global};

/// Whether some of the declarations is among the others.
pub(crate) fn is_a_decl_among(items: &[DeclItem], others: &[DeclItem]) -> bool
    ensures { result ≡ list_any (λ d. members.has_decl others.now d.decl) items.now }
{
    let mut rest = items;
    'rest: while let Some((first, behind)) = rest.split_first() {
        if has_decl(others, &first.decl) {
            return true;
        }
        rest = behind;
    }
    false
}

/// Whether two rules have the same set of selectors.
pub(crate) fn have_same_selectors(
    alloc: Global,
    upper: &Rule,
    lower: &Rule,
) -> Result<bool, AllocError>
    ensures { IfOk result (λ same. IsTrue same ↔ HaveSameSelectors upper.now lower.now) }
{
    let among = are_selectors_among(alloc, &upper.selectors, &lower.selectors)?;
    if !among {
        return Ok(false);
    }
    are_selectors_among(alloc, &lower.selectors, &upper.selectors)
}

/// Whether two lists have the same declarations, in the same order.
fn are_same_decls(items: &[DeclItem], others: &[DeclItem]) -> bool
    ensures { IsTrue result ↔ (map (λ d. d.decl) items.now ≡ map (λ d. d.decl) others.now) }
{
    let mut rest = items;
    let mut rest_of_others = others;
    'rest: while let Some((first, behind)) = rest.split_first() {
        let Some((other, behind_other)) = rest_of_others.split_first() else {
            return false;
        };
        if !is_same_decl(&first.decl, &other.decl) {
            return false;
        }
        rest = behind;
        rest_of_others = behind_other;
    }
    rest_of_others.is_empty()
}

/// Whether two rules have the same list of declarations.
pub(crate) fn have_same_decls(upper: &Rule, lower: &Rule) -> bool
    ensures { IsTrue result ↔ HaveSameDecls upper.now lower.now }
{
    are_same_decls(&upper.decls, &lower.decls)
}

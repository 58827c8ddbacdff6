//! What a step leaves of its rules.

ghost use Rattle.std.specs.Prelude.{◌≡◌, ◌++◌, ◌∷◌, [], IfOk, not};
ghost use Rattle.std.specs.List.{filter};
ghost use Rattle.css_model.specs.declared.sheet.Item.TheVariants as item;
ghost use Rattle.order_laws.specs.Members as members;
ghost use Rattle.step_laws.specs.RuleParting as parting;

use css_model::{DeclItem, Item, Rule};
use rule_parts::{copied_selectors, has_decl};
use std::alloc::{AllocError, Global};

/// Those of the declarations that are not among the others.
fn decls_not_among(
    alloc: Global,
    items: &[DeclItem],
    others: &[DeclItem],
) -> Result<Vec<DeclItem>, AllocError>
    ensures { IfOk result (λ kept. kept.items ≡ filter (λ d. not (members.has_decl others.now d.decl)) items.now) }
{
    let mut kept = Vec::new(alloc);
    let mut rest = items;
    'rest: while let Some((first, behind)) = rest.split_first() {
        if !has_decl(others, &first.decl) {
            kept.push(first.copy()?)?;
        }
        rest = behind;
    }
    Ok(kept)
}

/// A rule without these declarations.
pub(crate) fn without_decls(
    alloc: Global,
    gone: &[DeclItem],
    rule: &Rule,
) -> Result<Rule, AllocError>
    ensures { IfOk result (λ rest. rest ≡ parting.without_decls gone.now rule.now) }
{
    let selectors = copied_selectors(alloc, &rule.selectors)?;
    let decls = decls_not_among(alloc, &rule.decls, gone)?;
    Ok(Rule { selectors, decls })
}

/// Puts a rule after the items, if it has a selector and a declaration.
pub(crate) fn push_left(mut items: Vec<Item>, rule: Rule) -> Result<Vec<Item>, AllocError>
    ensures { IfOk result (λ more. more.items ≡ items.items ++ parting.rule_or_none rule) }
{
    if !rule.selectors.is_empty() && !rule.decls.is_empty() {
        items.push(Item::Rule(rule))?;
    }
    Ok(items)
}

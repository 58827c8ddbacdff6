//! The selectors of a style sheet.

ghost use Rattle.std.specs.Prelude.{◌≡◌, ◌++◌, IfOk, OnOk, map};
ghost use Rattle.bench_counts.specs.Asking as spec;

use css_model::{Item, SelItem, Selector};
use std::alloc::{AllocError, Global};

/// Puts the selectors of a rule after the others.
fn push_rule(found: &mut Vec<Selector>, selectors: &[SelItem]) -> Result<(), AllocError>
    ensures { OnOk result (found.new.items ≡ found.old.items ++ map (λ s. s.selector) selectors.now) }
{
    for one in selectors {
        found.push(one.selector.copy()?)?;
    }
    Ok(())
}

/// Puts the selectors of an item after the others: none of what is kept.
fn push_item(found: &mut Vec<Selector>, item: &Item) -> Result<(), AllocError>
    ensures { OnOk result (found.new.items ≡ found.old.items ++ spec.selectors_in item.now) }
{
    match item {
        Item::Rule(rule) => push_rule(found, &rule.selectors),
        Item::KeptRule(_) | Item::KeptBlock(_) => Ok(()),
    }
}

/// The selectors of the style rules among the items of a sheet, in order.
pub(crate) fn selectors_of(alloc: Global, items: &[Item]) -> Result<Vec<Selector>, AllocError>
    ensures { IfOk result (λ found. found.items ≡ spec.selectors_of items.now) }
{
    let mut found = Vec::new(alloc);
    for item in items {
        push_item(&mut found, item)?;
    }
    Ok(found)
}

//! The selectors of the style rules of a sheet, with their numbers.

ghost use Rattle.std.specs.Prelude.{◌≡◌, ◌++◌, ◌+◌, ◌<◌, ◌^◌, IfOk, OnOk, map};
ghost use Rattle.std.specs.List.{enumerate_from};
ghost use Rattle.dead_text.specs.Listing as spec;

use css_model::{Item, SelItem, Selector};
use std::alloc::{AllocError, Global};
use std::marker::Model;

/// A selector of a rule, with the number of the rule among the items of the sheet, and its own number among the
/// selectors of the rule. Both count from 1.
#[derive(Drop)]
pub(crate) struct Numbered<'a> {
    pub(crate) item: usize,
    pub(crate) number: usize,
    pub(crate) selector: &'a Selector,
}

impl<'a> Model for Numbered<'a> {
    ghost use Rattle.dead_text.specs.Listing.{NumberedSelector};

    ghost Value = { NumberedSelector };

    ghost view = { λ x. record { item = x.item; number = x.number; selector = x.selector.now } };
}

/// Puts the selectors of the rule of this number after the others.
fn push_rule<'a>(
    found: &mut Vec<Numbered<'a>>,
    item: usize,
    selectors: &'a [SelItem],
) -> Result<(), AllocError>
    ensures { OnOk result (found.new.items ≡ found.old.items ++ map (spec.numbered item) (enumerate_from 1 selectors.now)) }
{
    for (i, one) in selectors.iter().enumerate() {
        found.push(Numbered {
            item,
            number: i + 1,
            selector: &one.selector,
        })?;
    }
    Ok(())
}

/// Puts the selectors of the item of this number after the others.
fn push_item<'a>(
    found: &mut Vec<Numbered<'a>>,
    number: usize,
    item: &'a Item,
) -> Result<(), AllocError>
    ensures { OnOk result (found.new.items ≡ found.old.items ++ spec.selectors_in (number, item.now)) }
{
    match item {
        Item::Rule(rule) => push_rule(found, number, &rule.selectors),
        Item::KeptRule(_) | Item::KeptBlock(_) => Ok(()),
    }
}

/// The selectors of the style rules among the items of a sheet, in order.
pub(crate) fn numbered_selectors<'a>(
    alloc: Global,
    items: &'a [Item],
) -> Result<Vec<Numbered<'a>>, AllocError>
    ensures { IfOk result (λ found. found.items ≡ spec.numbered_selectors items.now) }
{
    let mut found = Vec::new(alloc);
    for (i, item) in items.iter().enumerate() {
        push_item(&mut found, i + 1, item)?;
    }
    Ok(found)
}

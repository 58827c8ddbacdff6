//! Asking for each selector of a sheet whether it matches anything.

ghost use Rattle.std.specs.Prelude.{◌≡◌, ◌++◌, map, IfOk, OnOk};
ghost use Rattle.std.specs.List.{AllByRecursion, flat_map};
ghost use Rattle.css_model.specs.Selectors.Profile.{IsInProfile};
ghost use Rattle.dead_sel.specs.Living.{every};
ghost use Rattle.media_groups.specs.Opened.{opened_of};
ghost use Rattle.overlap.specs.Remembered.{Asks, IsHeld};
ghost use Rattle.lint_text.specs.Asking as spec;

use css_model::{Item, SelItem, Selector, Sheet};
use dead_sel::life;
use media_groups::Media;
use overlap::Pairs;
use std::alloc::{AllocError, Global};
use std::marker::Model;

/// A selector that is asked for.
#[derive(Drop)]
pub(crate) struct Asked<'a> {
    selector: &'a Selector,
}

impl<'a> Model for Asked<'a> {
    ghost use Rattle.css_model.specs.Documents.SelectorParts.{SelectorParts};

    ghost Value = { SelectorParts };

    ghost view = { λ x. x.selector.now };
}

/// Puts the selectors of a rule after the others.
fn push_rule<'a>(found: &mut Vec<Asked<'a>>, selectors: &'a [SelItem]) -> Result<(), AllocError>
    ensures { OnOk result (found.new.items ≡ found.old.items ++ map (λ s. s.selector) selectors.now) }
{
    let mut rest = selectors;
    'selectors: while let [s, others @ ..] = rest {
        found.push(Asked {
            selector: &s.selector,
        })?;
        rest = others;
    }
    Ok(())
}

/// Puts the selectors of an item after the others.
fn push_item<'a>(found: &mut Vec<Asked<'a>>, item: &'a Item) -> Result<(), AllocError>
    ensures { OnOk result (found.new.items ≡ found.old.items ++ spec.selectors_in item.now) }
{
    match item {
        Item::Rule(rule) => push_rule(found, &rule.selectors),
        Item::KeptRule(_) | Item::KeptBlock(_) => Ok(()),
    }
}

/// Puts the selectors of items after the others.
fn push_items<'a>(found: &mut Vec<Asked<'a>>, items: &'a [Item]) -> Result<(), AllocError>
    ensures { OnOk result (found.new.items ≡ found.old.items ++ flat_map spec.selectors_in items.now) }
{
    let mut rest = items;
    'items: while let [item, others @ ..] = rest {
        push_item(found, item)?;
        rest = others;
    }
    Ok(())
}

/// Puts the selectors in the bodies of opened blocks after the others.
fn push_bodies<'a>(found: &mut Vec<Asked<'a>>, media: &'a [Media]) -> Result<(), AllocError>
    ensures { OnOk result (found.new.items ≡ found.old.items ++ flat_map (λ m. flat_map spec.selectors_in m.sheet.items) media.now) }
{
    let mut rest = media;
    'bodies: while let [block, others @ ..] = rest {
        push_items(found, &block.sheet.items)?;
        rest = others;
    }
    Ok(())
}

/// The selectors of a sheet with these opened blocks.
fn selectors_of<'a>(
    alloc: Global,
    text: &[u8],
    sheet: &'a Sheet,
    media: &'a [Media],
) -> Result<Vec<Asked<'a>>, AllocError>
    requires { media.now ≡ opened_of sheet.now.items text.now }
    ensures { IfOk result (λ found. found.items ≡ spec.all_selectors text.now sheet.now.items) }
{
    let mut found = Vec::new(alloc);
    push_items(&mut found, &sheet.items)?;
    push_bodies(&mut found, media)?;
    Ok(found)
}

/// Asks whether a selector matches anything.
fn settle_one(alloc: Global, pairs: &mut Pairs, of: &Asked<'_>) -> Result<(), AllocError>
    requires { IsInProfile of.now }
    ensures asks { Asks pairs.old pairs.new of.now (every of.now.pseudo) }
    ensures held { OnOk result (IsHeld pairs.new.answers of.now (every of.now.pseudo)) }
{
    let _life = life(alloc, pairs, of.selector)?;
    Ok(())
}

/// Asks for each of some selectors whether it matches anything.
#[tactic(auto, using(crate::proofs::Asked::asks_none))]
fn settle_each(alloc: Global, pairs: &mut Pairs, selectors: &[Asked<'_>]) -> Result<(), AllocError>
    requires { AllByRecursion IsInProfile selectors.now }
    ensures asks { spec.AsksEach pairs.old pairs.new selectors.now }
    ensures held { OnOk result (spec.AreHeld pairs.new.answers selectors.now) }
{
    for one in selectors {
        settle_one(alloc, pairs, one)?;
    }
    Ok(())
}

/// Asks for each selector of a sheet with these opened blocks whether it matches anything.
#[tactic(auto, using(crate::proofs::Asked::asks_none))]
pub(crate) fn settle_all(
    alloc: Global,
    pairs: &mut Pairs,
    text: &[u8],
    sheet: &Sheet,
    media: &[Media],
) -> Result<(), AllocError>
    requires blocks { media.now ≡ opened_of sheet.now.items text.now }
    requires profile { AllByRecursion IsInProfile (spec.all_selectors text.now sheet.now.items) }
    ensures asks { spec.AsksEach pairs.old pairs.new (spec.all_selectors text.now sheet.now.items) }
    ensures held { OnOk result (spec.AreHeld pairs.new.answers (spec.all_selectors text.now sheet.now.items)) }
{
    let selectors = selectors_of(alloc, text, sheet, media)?;
    settle_each(alloc, pairs, &selectors)
}

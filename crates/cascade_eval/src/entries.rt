//! What a sheet applies to the target of an example.

ghost use Rattle.std.specs.Prelude.{◌≡◌, ◌<◌, ◌^◌, ◌++◌, IfOk, OnOk, map};
ghost use Rattle.std.specs.List.{AllByRecursion, filter};
ghost use Rattle.css_model.specs.Documents.Matching.{matches};
ghost use Rattle.css_model.specs.Documents.RunDocuments.{KeepsRules, expand, target_of};
ghost use Rattle.css_model.specs.Documents.Specificity.{specificity_of};
ghost use Rattle.cascade_eval.specs.Entries.{HasSmallSelectors, IsSmall, by_item, by_rules, weighed, weighed_all};

use css_model::{Decl, DeclItem, Example, Item, SelItem, Sheet, Specificity, specificity};
use line_match::matches_in;
use std::alloc::{AllocError, Global};
use std::marker::Model;

/// A declaration that applies, with its specificity and its place.
#[derive(Drop)]
pub(crate) struct Entry<'a> {
    pub(crate) decl: &'a Decl,
    pub(crate) weight: Specificity,
    pub(crate) item: usize,
    pub(crate) position: usize,
}

impl<'a> Model for Entry<'a> {
    ghost use Rattle.css_model.specs.Cascade.Winner.{AppliedDeclaration};

    ghost Value = { AppliedDeclaration };

    ghost view = { λ e. record { decl = e.decl.now; specificity = e.weight; place = record { item = e.item; position = e.position } } };
}

impl<'a> Entry<'a> {
    /// The same declaration at the same place.
    pub(crate) fn copy(&self) -> Entry<'a>
        ensures { result ≡ self.now }
    {
        Entry {
            decl: self.decl,
            weight: self.weight,
            item: self.item,
            position: self.position,
        }
    }
}

/// What the rules of a sheet apply, in the order of the source.
pub(crate) fn entries<'a>(
    alloc: Global,
    x: &Example,
    sheet: &'a Sheet,
) -> Result<Vec<Entry<'a>>, AllocError>
    requires rules { KeepsRules x.now }
    requires small { AllByRecursion HasSmallSelectors sheet.now.items }
    ensures { IfOk result (λ found. found.items ≡ by_rules (matches (expand x.now) (target_of x.now)) 0 sheet.now.items) }
{
    let mut found = Vec::new(alloc);
    let mut left = sheet.items.as_slice();
    let mut number = 0;
    'items: while let Some((item, behind)) = left.split_first() {
        push_item(&mut found, alloc, x, item, number)?;
        left = behind;
        number += 1;
    }
    Ok(found)
}

/// Puts what an item applies after the others.
fn push_item<'a>(
    found: &mut Vec<Entry<'a>>,
    alloc: Global,
    x: &Example,
    item: &'a Item,
    number: usize,
) -> Result<(), AllocError>
    requires rules { KeepsRules x.now }
    requires small { HasSmallSelectors item.now }
    ensures { OnOk result (found.new.items ≡ found.old.items ++ by_item (matches (expand x.now) (target_of x.now)) number item.now) }
{
    match item {
        Item::Rule(rule) => {
            let weights = weights(alloc, x, rule.selectors.as_slice())?;
            push_decls(found, rule.decls.as_slice(), weights.as_slice(), number)
        }
        Item::KeptRule(_) | Item::KeptBlock(_) => Ok(()),
    }
}

/// The specificities of the selectors that match, in the order of the source.
fn weights(
    alloc: Global,
    x: &Example,
    selectors: &[SelItem],
) -> Result<Vec<Specificity>, AllocError>
    requires rules { KeepsRules x.now }
    requires small { AllByRecursion (λ s. IsSmall s.selector) selectors.now }
    ensures { IfOk result (λ weights. weights.items ≡
        map (λ selector. specificity_of selector) (filter (matches (expand x.now) (target_of x.now)) (map (λ s. s.selector) selectors.now))) }
{
    let mut weights = Vec::new(alloc);
    let mut left = selectors;
    'selectors: while let Some((item, behind)) = left.split_first() {
        if matches_in(alloc, x, &item.selector)? {
            weights.push(specificity(&item.selector))?;
        }
        left = behind;
    }
    Ok(weights)
}

/// Puts declarations of an item, with each of these specificities, after the others.
fn push_decls<'a>(
    found: &mut Vec<Entry<'a>>,
    decls: &'a [DeclItem],
    weights: &[Specificity],
    item: usize,
) -> Result<(), AllocError>
    ensures { OnOk result (found.new.items ≡ found.old.items ++ weighed_all weights.now item 0 decls.now) }
{
    let mut left = decls;
    let mut position = 0;
    'decls: while let Some((decl, behind)) = left.split_first() {
        push_decl(found, &decl.decl, weights, item, position)?;
        left = behind;
        position += 1;
    }
    Ok(())
}

/// Puts a declaration, with each of these specificities, after the others.
fn push_decl<'a>(
    found: &mut Vec<Entry<'a>>,
    decl: &'a Decl,
    weights: &[Specificity],
    item: usize,
    position: usize,
) -> Result<(), AllocError>
    ensures { OnOk result (found.new.items ≡ found.old.items ++ weighed weights.now (record { item = item; position = position }) decl.now) }
{
    let mut left = weights;
    'weights: while let Some((weight, behind)) = left.split_first() {
        found.push(Entry {
            decl,
            weight: *weight,
            item,
            position,
        })?;
        left = behind;
    }
    Ok(())
}

//! The pairs of a sheet, each at its last place.

ghost use Rattle.std.specs.Prelude.{◌≡◌, IfOk, OnOk, map, reverse};
ghost use Rattle.css_model.specs.declared.sheet.Item.TheVariants as kinds;
ghost use Rattle.order_laws.specs.Members.{same_pair};
ghost use Rattle.order_laws.specs.Places as order;
ghost use Rattle.sheet_order.specs.Counting.{counted, last_with};
ghost use Rattle.sheet_order.specs.Keys.{PutsPairs, inserted, products_back};

use crate::keys::{DeclKey, PairKey, SelectorKey};
use crate::members::has_number;
use css_model::{Decl, DeclItem, Item, Rule, SelItem, Selector};
use indexmap::IndexSet;
use std::alloc::{AllocError, Global};
use std::marker::Model;

/// A pair of a sheet at one of its places: the number of its item, and the numbers of its selector and its declaration
/// in it.
#[derive(Drop)]
pub struct Placed<'a> {
    /// The selector.
    pub selector: &'a Selector,
    /// The declaration.
    pub decl: &'a Decl,
    /// The number of its item.
    pub item: usize,
    /// The number of the selector.
    pub selector_number: usize,
    /// The number of the declaration.
    pub decl_number: usize,
}

impl<'a> Model for Placed<'a> {
    ghost use Rattle.order_laws.specs.Places.{PlacedPair};

    ghost Value = { PlacedPair };

    ghost view = { λ x. record {
      pair = record { selector = x.selector.now; decl = x.decl.now };
      place = record { item = x.item; selector = x.selector_number; decl = x.decl_number };
    } };
}

impl<'a> Placed<'a> {
    /// The same pair at the same place.
    pub fn copy(&self) -> Placed<'a>
        ensures { result ≡ self.now }
    {
        Placed {
            selector: self.selector,
            decl: self.decl,
            item: self.item,
            selector_number: self.selector_number,
            decl_number: self.decl_number,
        }
    }

    /// Whether two pairs are the same, whatever their places.
    pub fn is_same(&self, other: &Placed<'_>) -> bool
        ensures { result ≡ same_pair self.now.pair other.now.pair }
    {
        *self.selector == *other.selector && *self.decl == *other.decl
    }
}

/// The selectors of a rule with their numbers. Of equal ones it is the first.
fn first_selectors<'a>(
    alloc: Global,
    selectors: &'a [SelItem],
) -> Result<IndexSet<SelectorKey<'a>>, AllocError>
    ensures { IfOk result (λ firsts. firsts.keys ≡ order.first_selectors 0 selectors.now) }
{
    let mut firsts = IndexSet::new(alloc);
    let mut number = 0;
    let mut rest = selectors;
    'rest: while let Some((first, behind)) = rest.split_first() {
        firsts.insert(SelectorKey {
            number,
            selector: &first.selector,
        })?;
        number += 1;
        rest = behind;
    }
    Ok(firsts)
}

/// The declarations of a rule with their numbers, the last one first. Of equal ones it is the last.
fn last_decls<'a>(alloc: Global, decls: &'a [DeclItem]) -> Result<IndexSet<DeclKey<'a>>, AllocError>
    ensures { IfOk result (λ lasts. lasts.keys ≡ reverse (order.last_decls 0 decls.now)) }
{
    let mut lasts = IndexSet::new(alloc);
    let mut rest = decls;
    'rest: while let Some((last, before)) = rest.split_last() {
        lasts.insert(DeclKey {
            number: before.len(),
            decl: &last.decl,
        })?;
        rest = before;
    }
    Ok(lasts)
}

/// Puts the pairs of a selector and these declarations after the others, in their order, unless they are there.
#[tactic(auto, using(crate::proofs::Lists::map_append, crate::proofs::Inserting::inserted_append))]
fn put_pairs<'a>(
    found: &mut IndexSet<PairKey<'a>>,
    item: usize,
    selector: &SelectorKey<'a>,
    decls: &[DeclKey<'a>],
) -> Result<(), AllocError>
    ensures { OnOk result (found.new.keys ≡ inserted found.old.keys (map (order.placed item selector.now) decls.now)) }
{
    for decl in decls {
        let placed = Placed {
            selector: selector.selector,
            decl: decl.decl,
            item,
            selector_number: selector.number,
            decl_number: decl.number,
        };
        found.insert(PairKey { placed })?;
    }
    Ok(())
}

/// Puts the pairs of selectors and declarations after the others, those of the last selector first, unless they are
/// there.
#[tactic(auto, using(crate::proofs::Inserting::products_next))]
fn put_products<'a>(
    found: &mut IndexSet<PairKey<'a>>,
    item: usize,
    selectors: IndexSet<SelectorKey<'a>>,
    decls: &[DeclKey<'a>],
) -> Result<(), AllocError>
    ensures { OnOk result (found.new.keys ≡ inserted found.old.keys (products_back item selectors.entry.keys decls.now)) }
{
    let mut left = selectors;
    'left: while let Some(last) = left.pop() {
        put_pairs(found, item, &last, decls)?;
    }
    Ok(())
}

/// Puts the pairs of a rule after the others, the last one first, unless they are there.
#[tactic(auto, using(crate::proofs::RulePairs::rule_put))]
fn put_rule<'a>(
    alloc: Global,
    found: &mut IndexSet<PairKey<'a>>,
    item: usize,
    rule: &'a Rule,
) -> Result<(), AllocError>
    ensures { OnOk result (PutsPairs found.old.keys (order.pairs_of item (kinds.Rule rule.now)) found.new.keys) }
{
    let selectors = first_selectors(alloc, &rule.selectors)?;
    let decls = last_decls(alloc, &rule.decls)?;
    // That the selectors are distinct is at hand where they are counted.
    let _count = selectors.len();
    put_products(found, item, selectors, decls.as_slice())
}

/// Puts the pairs of an item after the others, the last one first, unless they are there.
fn put_item<'a>(
    alloc: Global,
    found: &mut IndexSet<PairKey<'a>>,
    number: usize,
    item: &'a Item,
) -> Result<(), AllocError>
    ensures { OnOk result (PutsPairs found.old.keys (order.pairs_of number item.now) found.new.keys) }
{
    match item {
        Item::Rule(rule) => put_rule(alloc, found, number, rule),
        _ => Ok(()),
    }
}

/// Whether the item of this number counts. All do where `counts` is `None`; otherwise those that it lists.
fn is_counted(counts: Option<&[u32]>, number: usize) -> bool
    ensures { result ≡ counted counts.entry number }
{
    match counts {
        None => true,
        Some(numbers) => has_number(numbers, number),
    }
}

/// Puts the pairs of an item that counts after those of the items after it, the last one first, unless they are there.
fn put_counted<'a>(
    alloc: Global,
    counts: Option<&[u32]>,
    found: &mut IndexSet<PairKey<'a>>,
    number: usize,
    item: &'a Item,
) -> Result<(), AllocError>
    ensures { OnOk result (reverse found.new.keys ≡ last_with (counted counts.entry) number item.now (reverse found.old.keys)) }
{
    if is_counted(counts, number) {
        put_item(alloc, found, number, item)?;
    }
    Ok(())
}

/// The last pairs of the items that count, the last one first.
#[tactic(auto, using(crate::proofs::LastItems::last_next))]
fn last_pairs_back<'a>(
    alloc: Global,
    counts: Option<&[u32]>,
    items: &'a [Item],
) -> Result<IndexSet<PairKey<'a>>, AllocError>
    ensures { IfOk result (λ found. reverse found.keys ≡ order.last_pairs_from (counted counts.entry) 0 items.now) }
{
    let mut found = IndexSet::new(alloc);
    let mut rest = items;
    'rest: while let Some((last, before)) = rest.split_last() {
        put_counted(alloc, counts, &mut found, before.len(), last)?;
        rest = before;
    }
    Ok(found)
}

/// These pairs from the last one to the first.
#[tactic(auto, using(crate::proofs::Lists::reverse_push))]
fn turned<'a>(alloc: Global, pairs: IndexSet<PairKey<'a>>) -> Result<Vec<Placed<'a>>, AllocError>
    ensures { IfOk result (λ list. list.items ≡ reverse pairs.entry.keys) }
{
    let mut left = pairs;
    let mut list = Vec::with_capacity(alloc, left.len())?;
    'left: while let Some(last) = left.pop() {
        list.push(last.placed)?;
    }
    Ok(list)
}

/// The pairs of the items that count, each once, at its last place in these. All items count where `counts` is `None`;
/// otherwise those whose numbers it lists. `AllocError` where memory runs out.
pub fn last_pairs<'a>(
    alloc: Global,
    counts: Option<&[u32]>,
    items: &'a [Item],
) -> Result<Vec<Placed<'a>>, AllocError>
    ensures { IfOk result (λ found. found.items ≡ order.last_pairs_from (counted counts.entry) 0 items.now) }
{
    let found = last_pairs_back(alloc, counts, items)?;
    turned(alloc, found)
}

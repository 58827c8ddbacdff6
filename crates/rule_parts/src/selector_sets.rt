//! Selectors as a set, in which each one is found by its hash.

ghost use Rattle.std.specs.Prelude.{◌≡◌, IfOk, OnOk};
ghost use Rattle.std.specs.List.{list_all, list_any};
ghost use Rattle.order_laws.specs.Members as members;
ghost use Rattle.rule_parts.specs.SelectorSets.{AreSelectors, PutsSelector};

use crate::members::has_selector;
use crate::selector_keys::SelectorKey;
use css_model::SelItem;
use std::alloc::{AllocError, Global};
use std::collections::HashSet;

/// Of fewer selectors than this no set is made.
const FEW: usize = 16;

/// Puts a selector into a set.
#[tactic(auto, using(crate::proofs::SelectorSets::puts))]
fn put_selector<'a>(set: &mut HashSet<SelectorKey<'a>>, item: &'a SelItem) -> Result<(), AllocError>
    ensures { OnOk result (PutsSelector set.old.keys item.now.selector set.new.keys) }
{
    set.insert(SelectorKey {
        selector: &item.selector,
    })?;
    Ok(())
}

/// The set of these selectors.
#[tactic(auto, using(crate::proofs::SelectorSets::beside_next, crate::proofs::SelectorSets::beside_all))]
fn set_of<'a>(alloc: Global, items: &'a [SelItem]) -> Result<HashSet<SelectorKey<'a>>, AllocError>
    ensures { IfOk result (λ set. AreSelectors items.now set.keys) }
{
    let mut set: HashSet<SelectorKey<'_>> = HashSet::new(alloc);
    let mut rest = items;
    'rest: while let Some((first, behind)) = rest.split_first() {
        put_selector(&mut set, first)?;
        rest = behind;
    }
    Ok(set)
}

/// Whether a selector is in a set.
fn is_in<'a>(set: &HashSet<SelectorKey<'a>>, item: &'a SelItem) -> bool
    ensures { result ≡ list_any (members.same_selector item.now.selector) set.now.keys }
{
    set.contains(&SelectorKey {
        selector: &item.selector,
    })
}

/// Whether each of the selectors is in a set.
fn are_in<'a>(set: &HashSet<SelectorKey<'a>>, items: &'a [SelItem]) -> bool
    ensures { result ≡ list_all (λ s. list_any (members.same_selector s.selector) set.now.keys) items.now }
{
    let mut rest = items;
    'rest: while let Some((first, behind)) = rest.split_first() {
        if !is_in(set, first) {
            return false;
        }
        rest = behind;
    }
    true
}

/// Whether each of many selectors is among the others, of which a set is made.
fn are_many_among(alloc: Global, items: &[SelItem], others: &[SelItem]) -> Result<bool, AllocError>
    ensures { IfOk result (λ among. among ≡ list_all (λ s. members.has_selector others.now s.selector) items.now) }
{
    let set = set_of(alloc, others)?;
    Ok(are_in(&set, items))
}

/// Whether each of a few selectors is among the others, by search.
fn are_few_among(items: &[SelItem], others: &[SelItem]) -> bool
    ensures { result ≡ list_all (λ s. members.has_selector others.now s.selector) items.now }
{
    let mut rest = items;
    'rest: while let Some((first, behind)) = rest.split_first() {
        if !has_selector(others, &first.selector) {
            return false;
        }
        rest = behind;
    }
    true
}

/// Whether each of the selectors is among the others. The time is that of all of them together: of many others a set is
/// made, if the first selector is among them. `Err(AllocError)` if memory is short.
pub fn are_selectors_among(
    alloc: Global,
    items: &[SelItem],
    others: &[SelItem],
) -> Result<bool, AllocError>
    ensures { IfOk result (λ among. among ≡ list_all (λ s. members.has_selector others.now s.selector) items.now) }
{
    let Some((first, behind)) = items.split_first() else {
        return Ok(true);
    };
    if !has_selector(others, &first.selector) {
        return Ok(false);
    }
    if others.len() < FEW || behind.len() < FEW {
        return Ok(are_few_among(behind, others));
    }
    are_many_among(alloc, behind, others)
}

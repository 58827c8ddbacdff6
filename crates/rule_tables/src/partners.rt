//! Order keys of the rules that have parts in common with a rule.

ghost use Rattle.std.specs.Prelude.{◌≡◌, ◌≢◌, [], ℕ, IfOk, IsTrue, OnOk, length};
ghost use Rattle.std.specs.List.{Contains};
ghost use Rattle.std.specs.List.Sorted.{IsStrictlyIncreasing};
ghost use Rattle.css_model.specs.declared.sheet.SelItem.{SelItem};
ghost use Rattle.rule_tables.specs.Entries.{HaveSameMembers, Puts};
ghost use Rattle.rule_tables.specs.Ahead.{Reaches};
ghost use Rattle.rule_tables.specs.SharedKeys.{shared};
ghost use Rattle.rule_tables.specs.Tables as spec;

use crate::ahead::{Common, capped_sum};
use crate::digests::{decl_digest, decl_digests, selector_digest};
use crate::order_key_lists::{OrderKeyLists, has_no_other, has_order_key, shorter};
use crate::order_keys::OrderKeys;
use crate::shared_keys::{SharedKeys, SharedList};
use css_model::{Decl, DeclItem, SelItem};
use std::alloc::{AllocError, Global};

/// How many selectors of a rule are looked at.
const FEW: usize = 8;

/// Of more declarations than this the order keys are put together in one list.
const MANY: usize = 16;

/// The first selectors.
fn first_few(selectors: &[SelItem]) -> &[SelItem]
    ensures some { selectors.now ≢ [] → result.now ≢ [] }
    ensures among { (s : SelItem) → Contains result.now s → Contains selectors.now s }
{
    &selectors[..FEW.min(selectors.len())]
}

/// The order keys under the digest of one of the first selectors: those that are under all of them, and maybe others.
pub(crate) fn order_keys_of_selectors<'a>(
    entries: &'a OrderKeyLists,
    selectors: &[SelItem],
) -> &'a [u64]
    ensures ascends { IsStrictlyIncreasing result.now }
    ensures shared { spec.PutsShared entries.now (spec.selector_digests selectors.now) [] result.now }
{
    let Some((first, behind)) = first_few(selectors).split_first() else {
        return &[];
    };
    let mut found = entries.under(selector_digest(&first.selector));
    let mut rest = behind;
    'rest: while let Some((next, behind)) = rest.split_first() {
        found = shorter(found, entries.under(selector_digest(&next.selector)));
        rest = behind;
    }
    found
}

/// Whether no other order key than this one is under the digests of selectors. It is not looked for where there are many.
pub(crate) fn have_no_others(entries: &OrderKeyLists, selectors: &[SelItem], own: u64) -> bool
    ensures { IsTrue result → (order_key : ℕ) → spec.IsUnderOne entries.now (spec.selector_digests selectors.now) order_key → order_key ≡ own }
{
    if selectors.len() > FEW {
        return false;
    }
    let mut rest = selectors;
    'rest: while let Some((first, behind)) = rest.split_first() {
        if !has_no_other(entries.under(selector_digest(&first.selector)), own) {
            return false;
        }
        rest = behind;
    }
    true
}

/// Whether an order key is under the digest of none of these selectors.
pub(crate) fn is_under_none(entries: &OrderKeyLists, selectors: &[SelItem], order_key: u64) -> bool
    ensures { IsTrue result → spec.IsUnderOne entries.now (spec.selector_digests selectors.now) order_key → ⊥ }
{
    let mut rest = selectors;
    'rest: while let Some((first, behind)) = rest.split_first() {
        if has_order_key(entries.under(selector_digest(&first.selector)), order_key) {
            return false;
        }
        rest = behind;
    }
    true
}

/// Puts order keys after the others.
fn put_order_keys(found: &mut Vec<u64>, order_keys: &[u64]) -> Result<(), AllocError>
    ensures { OnOk result (Puts found.old.items order_keys.now found.new.items) }
{
    found.extend_from_slice(order_keys)
}

/// Puts in order keys that are under digests of selectors: at least those that are under all of them.
pub(crate) fn put_shared(
    found: &mut Vec<u64>,
    entries: &OrderKeyLists,
    selectors: &[SelItem],
) -> Result<(), AllocError>
    ensures { OnOk result (spec.PutsShared entries.now (spec.selector_digests selectors.now) found.old.items found.new.items) }
{
    put_order_keys(found, order_keys_of_selectors(entries, selectors))
}

/// Puts in the order keys that are under one of these digests.
fn put_under_each(
    found: &mut Vec<u64>,
    entries: &OrderKeyLists,
    digests: &[u32],
) -> Result<(), AllocError>
    ensures { OnOk result (spec.PutsUnderOne entries.now digests.now found.old.items found.new.items) }
{
    let mut rest = digests;
    'rest: while let Some((first, behind)) = rest.split_first() {
        put_order_keys(found, entries.under(*first))?;
        rest = behind;
    }
    Ok(())
}

/// The same digests, each once.
fn each_once(mut digests: Vec<u32>) -> Vec<u32>
    ensures { HaveSameMembers result.items digests.items }
{
    digests.sort_unstable();
    digests.dedup();
    digests
}

/// Puts in the order keys that are under the digest of one of these declarations. Each digest is looked for once.
pub(crate) fn put_under_decls(
    alloc: Global,
    found: &mut Vec<u64>,
    entries: &OrderKeyLists,
    decls: &[DeclItem],
) -> Result<(), AllocError>
    ensures { OnOk result (spec.PutsUnderOne entries.now (spec.decl_digests decls.now) found.old.items found.new.items) }
{
    let digests = each_once(decl_digests(alloc, decls)?);
    put_under_each(found, entries, &digests)
}

/// The same order keys, each once, ascending. They are a few lists that ascend, one after the other, which a stable sort
/// finds.
pub(crate) fn in_order(mut found: Vec<u64>) -> Result<Vec<u64>, AllocError>
    ensures ascends { IfOk result (λ list. IsStrictlyIncreasing list.items) }
    ensures same { IfOk result (λ list. HaveSameMembers list.items found.items) }
{
    found.sort()?;
    found.dedup();
    Ok(found)
}

/// The order keys under the digest of a declaration, which weighs so much.
fn list_under<'a>(entries: &'a OrderKeyLists, decl: &Decl, weight: u64) -> SharedList<'a>
    ensures { spec.IsListUnder entries.now decl.now weight (shared result) }
{
    SharedList {
        order_keys: OrderKeys::Under(entries.under(decl_digest(decl))),
        common: Common { count: 1, weight },
    }
}

/// The order keys under the digest of each of these declarations, which weigh so much, in lists of their own.
fn lists_under<'a>(
    alloc: Global,
    entries: &'a OrderKeyLists,
    decls: &[DeclItem],
    weights: &[u64],
) -> Result<SharedKeys<'a>, AllocError>
    requires { length weights.now ≡ length decls.now }
    ensures { IfOk result (λ l. spec.AreListsUnder entries.now decls.now weights.now l) }
{
    let mut lists = Vec::with_capacity(alloc, decls.len())?;
    let mut rest = decls;
    let mut rest_of_weights = weights;
    'rest: while let Some((first, behind)) = rest.split_first() {
        let Some((weight, weights_behind)) = rest_of_weights.split_first() else {
            return Ok(SharedKeys { lists });
        };
        lists.push(list_under(entries, &first.decl, *weight))?;
        rest = behind;
        rest_of_weights = weights_behind;
    }
    Ok(SharedKeys { lists })
}

/// The sum of weights, or the greatest number if it is more.
fn total(weights: &[u64]) -> u64
    ensures { Reaches result (spec.sum_of weights.now) }
{
    let mut total: u64 = 0;
    let mut rest = weights;
    'rest: while let Some((first, behind)) = rest.split_first() {
        total = capped_sum(total, *first);
        rest = behind;
    }
    total
}

/// The order keys under the digest of one of these declarations, which weigh so much, in one list.
fn one_list_under<'a>(
    alloc: Global,
    entries: &'a OrderKeyLists,
    decls: &[DeclItem],
    weights: &[u64],
) -> Result<SharedKeys<'a>, AllocError>
    ensures { IfOk result (λ l. spec.AreListsUnder entries.now decls.now weights.now l) }
{
    let mut found = Vec::new(alloc);
    put_under_decls(alloc, &mut found, entries, decls)?;
    let order_keys = in_order(found)?;
    let common = Common {
        count: decls.len(),
        weight: total(weights),
    };
    let mut lists = Vec::with_capacity(alloc, 1)?;
    lists.push(SharedList {
        order_keys: OrderKeys::Made(order_keys),
        common,
    })?;
    Ok(SharedKeys { lists })
}

/// The order keys under the digest of one of these declarations, which weigh so much. Those of many are put together.
pub(crate) fn order_keys_of_decls<'a>(
    alloc: Global,
    entries: &'a OrderKeyLists,
    decls: &[DeclItem],
    weights: &[u64],
) -> Result<SharedKeys<'a>, AllocError>
    requires { length weights.now ≡ length decls.now }
    ensures { IfOk result (λ l. spec.AreListsUnder entries.now decls.now weights.now l) }
{
    if decls.len() > MANY {
        return one_list_under(alloc, entries, decls, weights);
    }
    lists_under(alloc, entries, decls, weights)
}

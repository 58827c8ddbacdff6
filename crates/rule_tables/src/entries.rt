//! Entries of a table: which rules have a part of a digest.

ghost use Rattle.std.specs.Prelude.{◌≡◌, ◌∷◌, [], OnErr, OnOk};
ghost use Rattle.rule_tables.specs.Entries as spec;

use crate::digests::{decl_digest, selector_digest};
use crate::order_key_lists::OrderKeyLists;
use css_model::{DeclItem, SelItem};
use std::alloc::AllocError;

/// A digest, and the order key of a rule with a part of this digest.
#[derive(Clone, Copy, Debug)]
pub struct Entry {
    /// The digest.
    pub digest: u32,
    /// The order key.
    pub order_key: u64,
}

/// The entry of a digest with an order key.
fn entry_of(digest: u32, order_key: u64) -> Entry
    ensures { result ≡ spec.entry digest order_key }
{
    Entry { digest, order_key }
}

/// Puts the entries of selectors in. After an error some may be there.
pub(crate) fn put_selectors(
    entries: &mut OrderKeyLists,
    selectors: &[SelItem],
    order_key: u64,
) -> Result<(), AllocError>
    ensures ok { OnOk result (spec.Puts entries.old (spec.selector_entries order_key selectors.now) entries.new) }
    ensures err { OnErr result (spec.PutsSome entries.old (spec.selector_entries order_key selectors.now) entries.new) }
{
    let mut rest = selectors;
    'rest: while let Some((first, behind)) = rest.split_first() {
        entries.put(entry_of(selector_digest(&first.selector), order_key))?;
        rest = behind;
    }
    Ok(())
}

/// Puts the entries of declarations in. After an error some may be there.
pub(crate) fn put_decls(
    entries: &mut OrderKeyLists,
    decls: &[DeclItem],
    order_key: u64,
) -> Result<(), AllocError>
    ensures ok { OnOk result (spec.Puts entries.old (spec.decl_entries order_key decls.now) entries.new) }
    ensures err { OnErr result (spec.PutsSome entries.old (spec.decl_entries order_key decls.now) entries.new) }
{
    let mut rest = decls;
    'rest: while let Some((first, behind)) = rest.split_first() {
        entries.put(entry_of(decl_digest(&first.decl), order_key))?;
        rest = behind;
    }
    Ok(())
}

/// Takes the entries of selectors out.
pub(crate) fn take_selectors(entries: &mut OrderKeyLists, selectors: &[SelItem], order_key: u64)
    ensures { spec.TakesOut entries.old (spec.selector_entries order_key selectors.now) entries.new }
{
    let mut rest = selectors;
    'rest: while let Some((first, behind)) = rest.split_first() {
        entries.take(entry_of(selector_digest(&first.selector), order_key));
        rest = behind;
    }
}

/// Takes the entries of declarations out.
pub(crate) fn take_decls(entries: &mut OrderKeyLists, decls: &[DeclItem], order_key: u64)
    ensures { spec.TakesOut entries.old (spec.decl_entries order_key decls.now) entries.new }
{
    let mut rest = decls;
    'rest: while let Some((first, behind)) = rest.split_first() {
        entries.take(entry_of(decl_digest(&first.decl), order_key));
        rest = behind;
    }
}

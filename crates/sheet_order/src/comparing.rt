//! Whether pairs and kept items weigh, and which comes last before which.

ghost use Rattle.std.specs.Prelude.{◌≡◌, ◌≤◌, ◌&&◌};
ghost use Rattle.std.specs.List.{list_any};
ghost use Rattle.std.specs.Bool.{beq};
ghost use Rattle.css_model.specs.Cascade.Family.{related};
ghost use Rattle.css_model.specs.Sheets.KeptItems as kept;
ghost use Rattle.order_laws.specs.Comparing as order;
ghost use Rattle.order_laws.specs.Members.{same_pair};
ghost use Rattle.order_laws.specs.Places.{last_pairs};
ghost use Rattle.order_laws.specs.Reversed as reversing;
ghost use Rattle.sheet_order.specs.Counting.{before_in, count_of};
ghost use Rattle.selector_laws.specs.Limits.{KeepsLimits};

use crate::pairs::Placed;
use css_model::{Decl, Item, specificity};
use related_props::related;

/// The items of a sheet, and its last pairs.
#[derive(Drop)]
pub struct Ordered<'a> {
    /// The items.
    pub items: &'a [Item],
    /// Their pairs, each at its last place.
    pub pairs: Vec<Placed<'a>>,
    ghost listed: { pairs.items ≡ last_pairs items.now },
}

/// Whether two pairs have equal importance and equal specificity.
#[tactic(auto, using(crate::proofs::Limits::small_compounds))]
fn same_rank(p: &Placed<'_>, q: &Placed<'_>) -> bool
    requires first { KeepsLimits p.now.pair.selector }
    requires second { KeepsLimits q.now.pair.selector }
    ensures { result ≡ order.same_rank p.now.pair q.now.pair }
{
    p.decl.important == q.decl.important && specificity(p.selector) == specificity(q.selector)
}

/// Whether two pairs weigh.
pub fn weigh(p: &Placed<'_>, q: &Placed<'_>) -> bool
    requires first { KeepsLimits p.now.pair.selector }
    requires second { KeepsLimits q.now.pair.selector }
    ensures { result ≡ order.weigh p.now.pair q.now.pair }
{
    *p.decl != *q.decl && related(&p.decl.name, &q.decl.name) && same_rank(p, q)
}

/// Whether a declaration of a kept rule weighs with a pair.
fn weighs_one(p: &Placed<'_>, decl: &Decl) -> bool
    ensures { result ≡ (related p.now.pair.decl.name decl.now.name && beq p.now.pair.decl.important decl.now.important) }
{
    related(&p.decl.name, &decl.name) && p.decl.important == decl.important
}

/// Whether one of some declarations of a kept rule weighs with a pair.
fn weighs_some(p: &Placed<'_>, decls: &[Decl]) -> bool
    ensures { result ≡ list_any (λ d. related p.now.pair.decl.name d.name && beq p.now.pair.decl.important d.important) decls.now }
{
    decls.iter().any(|decl| weighs_one(p, decl))
}

/// Whether a pair and a kept item weigh.
pub fn weighs_kept(p: &Placed<'_>, item: &Item) -> bool
    ensures { result ≡ order.weighs_kept p.now.pair item.now }
{
    match item {
        Item::Rule(_) => false,
        Item::KeptRule(rule) => weighs_some(p, &rule.decls),
        Item::KeptBlock(_) => true,
    }
}

/// Whether the first of two places is later.
fn is_later(x: &Placed<'_>, y: &Placed<'_>) -> bool
    ensures { result ≡ order.is_later x.now.place y.now.place }
{
    y.item < x.item || x.item == y.item && y.decl_number < x.decl_number
}

/// Whether a pair is among these, at a later place than another one.
fn stands_later(pairs: &[Placed<'_>], q: &Placed<'_>, x: &Placed<'_>) -> bool
    ensures { result ≡ list_any (λ y. same_pair y.pair q.now.pair && order.is_later y.place x.now.place) pairs.now }
{
    pairs.iter().any(|y| y.is_same(q) && is_later(y, x))
}

/// Whether the first pair is among these, and the second one at a later place.
fn stands_before(pairs: &[Placed<'_>], p: &Placed<'_>, q: &Placed<'_>) -> bool
    ensures { result ≡ before_in pairs.now p.now.pair q.now.pair }
{
    pairs
        .iter()
        .any(|x| x.is_same(p) && stands_later(pairs, q, x))
}

/// Whether the last of the first pair is before the last of the second.
fn comes_before(sheet: &Ordered<'_>, p: &Placed<'_>, q: &Placed<'_>) -> bool
    ensures { result ≡ order.comes_before sheet.now.items.now p.now.pair q.now.pair }
{
    stands_before(&sheet.pairs, p, q)
}

/// Whether an item is kept.
pub fn is_kept(item: &Item) -> bool
    ensures { result ≡ kept.is_kept item.now }
{
    !matches!(item, Item::Rule(_))
}

/// One for a kept item, otherwise 0.
fn kept_count(item: &Item) -> usize
    ensures exact { result ≡ count_of item.now }
    ensures small { result ≤ 1 }
{
    if is_kept(item) { 1 } else { 0 }
}

/// How many of the first `number` items are kept.
#[tactic(auto, using(crate::proofs::KeptNumbers::kept_next, crate::proofs::KeptNumbers::kept_none))]
pub fn kept_before(number: usize, items: &[Item]) -> usize
    ensures { result ≡ kept.kept_before number items.now }
{
    let mut kept = 0;
    let mut left = number;
    let mut rest = items;
    'rest: while let Some((first, behind)) = rest.split_first() {
        if left == 0 {
            return kept;
        }
        kept += kept_count(first);
        left -= 1;
        rest = behind;
    }
    kept
}

/// Whether the last of a pair is before the kept item of this number among the kept items.
fn comes_before_kept(sheet: &Ordered<'_>, p: &Placed<'_>, number: usize) -> bool
    ensures { result ≡ order.comes_before_kept sheet.now.items.now p.now.pair number }
{
    let items = sheet.items;
    let pairs = sheet.pairs.as_slice();
    pairs
        .iter()
        .any(|x| x.is_same(p) && kept_before(x.item, items) <= number)
}

/// Whether a pair weighs with another one, and comes before it in one of two sheets alone.
pub(crate) fn is_reversed(
    old: &Ordered<'_>,
    new: &Ordered<'_>,
    p: &Placed<'_>,
    q: &Placed<'_>,
) -> bool
    requires first { KeepsLimits p.now.pair.selector }
    requires second { KeepsLimits q.now.pair.selector }
    ensures { result ≡ reversing.is_reversed old.now.items.now new.now.items.now p.now.pair q.now.pair }
{
    weigh(p, q) && comes_before(old, p, q) != comes_before(new, p, q)
}

/// Whether a pair weighs with the kept item of this number, and comes before it in one of two sheets alone.
pub(crate) fn is_reversed_kept(
    old: &Ordered<'_>,
    new: &Ordered<'_>,
    p: &Placed<'_>,
    number: usize,
    item: &Item,
) -> bool
    ensures { result ≡ reversing.is_reversed_kept old.now.items.now new.now.items.now p.now.pair (number, item.now) }
{
    if !weighs_kept(p, item) {
        return false;
    }
    let kept = kept_before(number, old.items);
    comes_before_kept(old, p, kept) != comes_before_kept(new, p, kept)
}

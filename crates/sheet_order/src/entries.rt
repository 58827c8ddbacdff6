//! The entries of what is reversed.

ghost use Rattle.std.specs.Prelude.{◌≡◌, ◌++◌, [], ◌∷◌, IfOk, OnOk, map};
ghost use Rattle.std.specs.List.{AllByRecursion, filter, flat_map};
ghost use Rattle.order_laws.specs.Reversed as order;
ghost use Rattle.sheet_order.specs.Others.{other_seen};
ghost use Rattle.selector_laws.specs.Limits.{KeepsLimits};

use crate::comparing::{Ordered, is_kept, is_reversed, is_reversed_kept};
use crate::pairs::Placed;
use css_model::Item;
use std::alloc::{AllocError, Global};
use std::marker::Model;

/// What is reversed with a moved pair: another pair, or the kept item of this number.
#[derive(Drop)]
pub enum Counterpart<'a> {
    /// Another pair, at its last place in the sheet.
    Pair(Placed<'a>),
    /// The kept item of this number, from 0 among all items.
    Kept(usize),
}

/// A moved pair, and what it is reversed with.
#[derive(Drop)]
pub struct Reversal<'a> {
    /// The moved pair, at its last place in what is moved.
    pub moved: Placed<'a>,
    /// The other pair, or the kept item.
    pub other: Counterpart<'a>,
}

impl<'a> Model for Reversal<'a> {
    ghost use Rattle.order_laws.specs.Reversed as order;
    ghost use Rattle.sheet_order.specs.Others.{other_seen};

    ghost Value = { order.Reversal };

    ghost view = { λ r. record { moved = r.moved; other = other_seen r.other } };
}

impl<'a> Counterpart<'a> {
    /// The same counterpart.
    fn copy(&self) -> Counterpart<'a>
        ensures { other_seen result ≡ other_seen self.now }
    {
        match self {
            Counterpart::Pair(q) => Counterpart::Pair(q.copy()),
            Counterpart::Kept(number) => Counterpart::Kept(*number),
        }
    }
}

impl<'a> Reversal<'a> {
    /// The same entry.
    pub(crate) fn copy(&self) -> Reversal<'a>
        ensures { result ≡ self.now }
    {
        let moved = self.moved.copy();
        let other = self.other.copy();
        Reversal { moved, other }
    }
}

/// Puts a moved pair and another one after the entries, if they are reversed.
fn push_if_reversed<'a>(
    found: &mut Vec<Reversal<'a>>,
    old: &Ordered<'a>,
    new: &Ordered<'_>,
    p: &Placed<'a>,
    q: &Placed<'a>,
) -> Result<(), AllocError>
    requires first { KeepsLimits p.now.pair.selector }
    requires second { KeepsLimits q.now.pair.selector }
    ensures { OnOk result (found.new.items ≡ found.old.items
        ++ map (order.with_pair p.now) (filter (λ x. order.is_reversed old.now.items.now new.now.items.now p.now.pair x.pair) (q.now ∷ []))) }
{
    if is_reversed(old, new, p, q) {
        found.push(Reversal {
            moved: p.copy(),
            other: Counterpart::Pair(q.copy()),
        })?;
    }
    Ok(())
}

/// Puts the entries of a moved pair and other pairs after the others.
#[tactic(auto, using(crate::proofs::Lists::map_append, crate::proofs::Lists::filter_append))]
fn push_pairs_reversed<'a>(
    found: &mut Vec<Reversal<'a>>,
    old: &Ordered<'a>,
    new: &Ordered<'_>,
    p: &Placed<'a>,
    pairs: &[Placed<'a>],
) -> Result<(), AllocError>
    requires first { KeepsLimits p.now.pair.selector }
    requires all { AllByRecursion (λ q. KeepsLimits q.pair.selector) pairs.now }
    ensures { OnOk result (found.new.items ≡ found.old.items
        ++ map (order.with_pair p.now) (filter (λ x. order.is_reversed old.now.items.now new.now.items.now p.now.pair x.pair) pairs.now)) }
{
    for q in pairs {
        push_if_reversed(found, old, new, p, q)?;
    }
    Ok(())
}

/// Puts a moved pair and an item after the entries, if it is kept and they are reversed.
fn push_if_kept_reversed<'a>(
    found: &mut Vec<Reversal<'a>>,
    old: &Ordered<'a>,
    new: &Ordered<'_>,
    p: &Placed<'a>,
    number: usize,
    item: &Item,
) -> Result<(), AllocError>
    ensures { OnOk result (found.new.items ≡ found.old.items
        ++ map (order.with_kept p.now) (filter (order.is_reversed_kept old.now.items.now new.now.items.now p.now.pair) (order.kept_from number (item.now ∷ [])))) }
{
    if is_kept(item) {
        if is_reversed_kept(old, new, p, number, item) {
            found.push(Reversal {
                moved: p.copy(),
                other: Counterpart::Kept(number),
            })?;
        }
    }
    Ok(())
}

/// Puts the entries of a moved pair and kept items after the others.
#[tactic(auto, using(crate::proofs::Lists::map_append, crate::proofs::Lists::filter_append, crate::proofs::KeptNumbers::kept_from_cons))]
fn push_kept_reversed<'a>(
    found: &mut Vec<Reversal<'a>>,
    old: &Ordered<'a>,
    new: &Ordered<'_>,
    p: &Placed<'a>,
) -> Result<(), AllocError>
    ensures { OnOk result (found.new.items ≡ found.old.items
        ++ map (order.with_kept p.now) (filter (order.is_reversed_kept old.now.items.now new.now.items.now p.now.pair) (order.kept_from 0 old.now.items.now))) }
{
    let mut number = 0;
    let mut rest = old.items;
    'rest: while let Some((first, behind)) = rest.split_first() {
        push_if_kept_reversed(found, old, new, p, number, first)?;
        number += 1;
        rest = behind;
    }
    Ok(())
}

/// Puts all that a moved pair is reversed with after the entries.
fn push_reversed_with<'a>(
    found: &mut Vec<Reversal<'a>>,
    old: &Ordered<'a>,
    new: &Ordered<'_>,
    p: &Placed<'a>,
) -> Result<(), AllocError>
    requires first { KeepsLimits p.now.pair.selector }
    requires all { AllByRecursion (λ q. KeepsLimits q.pair.selector) old.now.pairs.items }
    ensures { OnOk result (found.new.items ≡ found.old.items ++ order.reversed_with old.now.items.now new.now.items.now p.now) }
{
    push_pairs_reversed(found, old, new, p, &old.pairs)?;
    push_kept_reversed(found, old, new, p)
}

/// All that moved pairs are reversed with, pair by pair.
#[tactic(auto, using(crate::proofs::Lists::flat_map_append))]
pub(crate) fn entries<'a>(
    alloc: Global,
    old: &Ordered<'a>,
    new: &Ordered<'_>,
    moved: &[Placed<'a>],
) -> Result<Vec<Reversal<'a>>, AllocError>
    requires first { AllByRecursion (λ p. KeepsLimits p.pair.selector) moved.now }
    requires all { AllByRecursion (λ q. KeepsLimits q.pair.selector) old.now.pairs.items }
    ensures { IfOk result (λ found. found.items ≡ flat_map (order.reversed_with old.now.items.now new.now.items.now) moved.now) }
{
    let mut found = Vec::new(alloc);
    for p in moved {
        push_reversed_with(&mut found, old, new, p)?;
    }
    Ok(found)
}

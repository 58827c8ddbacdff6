//! Where the members of a sheet are in it and in another one.

ghost use Rattle.std.specs.Prelude.{◌≡◌, IfOk, map};
ghost use Rattle.std.specs.List.{AllByRecursion};
ghost use Rattle.order_laws.specs.Comparing as order;
ghost use Rattle.sheet_same.specs.Judging.{IsAskable, IsAskablePair};
ghost use Rattle.sheet_same.specs.Standing as spec;

use crate::members::{Kind, Member};
use crate::twins::Twins;
use crate::weight::{Weight, may_weigh, weight_of};
use css_model::Item;
use order_laws::weighing_is_decided;
use sheet_order::Placed;
use std::alloc::{AllocError, Global};
use std::marker::Model;
use window_order::{decls_weigh, same_specificity};

/// A place of a sheet by which the order goes: an item, and a declaration in it.
#[derive(Clone, Copy)]
pub(crate) struct Spot {
    pub(crate) item: usize,
    pub(crate) decl: usize,
}

/// A member of a sheet, with its places in it and in another one, and its weight.
#[derive(Drop)]
pub(crate) struct Standing<'a> {
    pub(crate) member: Member<'a>,
    pub(crate) here: Spot,
    pub(crate) there: Spot,
    weight: Weight,
}

impl<'a> Model for Standing<'a> {
    ghost use Rattle.sheet_same.specs.Standing as spec;
    ghost use Rattle.sheet_same.specs.Weight.{weight_of};
    ghost use Rattle.std.specs.Prelude.{◌≡◌};

    ghost Value = { spec.Standing };

    ghost view = { λ x. record { member = x.member; here = x.here; there = x.there } };

    ghost invariant = { λ x. x.weight ≡ weight_of x.member };
}

/// The place of a pair.
fn spot_of(pair: &Placed<'_>) -> Spot
    ensures { result ≡ spec.spot_of pair.now.place }
{
    Spot {
        item: pair.item,
        decl: pair.decl_number,
    }
}

/// The place of a pair in the second of two sheets.
fn spot_in(twins: &Twins<'_>, pair: &Placed<'_>) -> Spot
    ensures { result ≡ spec.spot_in twins.now.other.now.pairs.items pair.now.pair }
{
    match twins.index.find(pair) {
        Some(twin) => spot_of(twin),
        None => Spot { item: 0, decl: 0 },
    }
}

/// The place of a kept item of this number.
fn kept_spot(number: usize) -> Spot
    ensures { result ≡ record { item = number; decl = 0 } }
{
    Spot {
        item: number,
        decl: 0,
    }
}

/// A member of the first of two sheets, with its places in both.
fn standing_of<'a>(twins: &Twins<'_>, member: &Member<'a>) -> Standing<'a>
    requires { IsAskable member.now }
    ensures { result ≡ spec.standing_of twins.now.sheet.now.items.now twins.now.other.now.items.now member.now }
{
    let (here, there) = match &member.kind {
        Kind::Pair(pair) => (spot_of(pair), spot_in(twins, pair)),
        Kind::Kept(number, _) => (kept_spot(*number), kept_spot(twins.kept_twin(*number))),
    };
    Standing {
        weight: weight_of(member),
        member: member.copy(),
        here,
        there,
    }
}

/// The members of the first of two sheets, with their places in both.
#[tactic(auto, using(crate::proofs::Lists::map_append))]
pub(crate) fn standings<'a>(
    alloc: Global,
    twins: &Twins<'_>,
    members: &[Member<'a>],
) -> Result<Vec<Standing<'a>>, AllocError>
    requires { AllByRecursion IsAskable members.now }
    ensures { IfOk result (λ found. found.items
        ≡ map (spec.standing_of twins.now.sheet.now.items.now twins.now.other.now.items.now) members.now) }
{
    let mut found = Vec::with_capacity(alloc, members.len())?;
    for member in members {
        found.push(standing_of(twins, member))?;
    }
    Ok(found)
}

/// Whether the first place is later.
pub(crate) fn is_later(x: Spot, y: Spot) -> bool
    ensures { result ≡ spec.is_later x y }
{
    y.item < x.item || x.item == y.item && y.decl < x.decl
}

/// Whether one of two members comes before the other in one of the sheets alone.
fn spots_differ(m: &Standing<'_>, x: &Standing<'_>) -> bool
    ensures { result ≡ spec.spots_differ m.now x.now }
{
    is_later(x.here, m.here) != is_later(x.there, m.there)
        || is_later(m.here, x.here) != is_later(m.there, x.there)
}

/// Whether two pairs weigh.
fn pairs_weigh(p: &Placed<'_>, q: &Placed<'_>) -> bool
    requires first { IsAskablePair p.now }
    requires second { IsAskablePair q.now }
    ensures { result ≡ order.weigh p.now.pair q.now.pair }
{
    weighing_is_decided();
    decls_weigh(p.decl, q.decl) && same_specificity(p.selector, q.selector)
}

/// Whether a pair weighs with an item.
fn kept_weighs(p: &Placed<'_>, item: &Item) -> bool
    ensures { result ≡ order.weighs_kept p.now.pair item.now }
{
    weighing_is_decided();
    window_order::weighs_kept(p.decl, item)
}

/// Whether two members weigh.
fn members_weigh(m: &Member<'_>, x: &Member<'_>) -> bool
    requires first { IsAskable m.now }
    requires second { IsAskable x.now }
    ensures { result ≡ spec.members_weigh m.now x.now }
{
    match (&m.kind, &x.kind) {
        (Kind::Pair(p), Kind::Pair(q)) => pairs_weigh(p, q),
        (Kind::Pair(p), Kind::Kept(_, item)) => kept_weighs(p, *item),
        (Kind::Kept(_, item), Kind::Pair(q)) => kept_weighs(q, *item),
        (Kind::Kept(_, _), Kind::Kept(_, _)) => false,
    }
}

/// Whether two members weigh. Their weights are looked at first: most members that do not weigh have different ones.
fn both_weigh(m: &Standing<'_>, x: &Standing<'_>) -> bool
    requires first { IsAskable m.now.member }
    requires second { IsAskable x.now.member }
    ensures { result ≡ spec.members_weigh m.now.member x.now.member }
{
    weighing_is_decided();
    may_weigh(&m.weight, &x.weight) && members_weigh(&m.member, &x.member)
}

/// Whether two members weigh and come in another order in the other sheet.
pub(crate) fn are_turned(m: &Standing<'_>, x: &Standing<'_>) -> bool
    requires first { IsAskable m.now.member }
    requires second { IsAskable x.now.member }
    ensures { result ≡ spec.are_turned m.now x.now }
{
    spots_differ(m, x) && both_weigh(m, x)
}

//! The walk through the couples of common members.

ghost use Rattle.std.specs.Prelude.{◌≡◌, ◌≤◌, ◌∷◌, ◌||◌, [], nat_le, length, IfOk, OnOk, reverse};
ghost use Rattle.std.specs.List.{AllByRecursion};
ghost use Rattle.sheet_members.specs.Ready.{IsReadyCommon};
ghost use Rattle.sheet_order.specs.Allowing.{Stays};
ghost use Rattle.turned_members.specs.Telling.{AreTold};
ghost use Rattle.turned_members.specs.Turned as turned;
ghost use Rattle.turned_members.specs.Walking as spec;
ghost use Rattle.turned_members.specs.Weight.{weight_of};

use crate::telling::{Told, is_full, tell};
use crate::weighing::commons_weigh;
use crate::weight::{Weight, weight_of};
use overlap::Pairs;
use sheet_members::Common;
use std::alloc::{AllocError, Global};
use std::marker::Model;

/// A common member on the walk.
#[derive(Drop)]
struct Walked<'a> {
    common: &'a Common<'a>,
    /// None from it on comes before this place in the second sheet.
    floor: usize,
    weight: Weight,
    ghost weighed: { weight ≡ weight_of common.now.mine.occurrence.part },
}

impl<'a> Model for Walked<'a> {
    ghost use Rattle.turned_members.specs.Walking as spec;

    ghost Value = { spec.Walked };

    ghost view = { λ w. record { common = w.common.now; floor = w.floor } };
}

/// The lesser of a place and the floor of the members behind it.
fn floor_with(there: usize, behind: usize) -> usize
    ensures first { result ≤ there }
    ensures second { result ≤ behind }
{
    if there < behind { there } else { behind }
}

/// A common member on the walk, behind which none comes before a place in the second sheet.
fn walked_at<'a>(common: &'a Common<'a>, behind: usize) -> Walked<'a>
    requires { IsReadyCommon common.now }
    ensures common { result.common ≡ common.now }
    ensures first { result.floor ≤ common.now.there }
    ensures second { result.floor ≤ behind }
{
    Walked {
        common,
        floor: floor_with(common.there, behind),
        weight: weight_of(common.here()),
    }
}

/// The common members from the last one to the first, on the walk.
#[tactic(auto, using(crate::proofs::Floors::none_behind, crate::proofs::Floors::ready_at, crate::proofs::Floors::behind_next, crate::proofs::Floors::all_behind))]
fn walked_back<'a>(alloc: Global, commons: &'a [Common<'a>]) -> Result<Vec<Walked<'a>>, AllocError>
    requires { AllByRecursion IsReadyCommon commons.now }
    ensures commons { IfOk result (λ found. spec.commons_of (reverse found.items) ≡ commons.now) }
    ensures floors { IfOk result (λ found. spec.HaveFloors (reverse found.items)) }
{
    let mut found = Vec::with_capacity(alloc, commons.len())?;
    let mut floor = usize::MAX;
    let mut left = commons.len();
    'left: while left > 0 {
        left -= 1;
        let w = walked_at(&commons[left], floor);
        floor = w.floor;
        found.push(w)?;
    }
    Ok(found)
}

/// The common members on the walk.
fn all_walked<'a>(alloc: Global, commons: &'a [Common<'a>]) -> Result<Vec<Walked<'a>>, AllocError>
    requires { AllByRecursion IsReadyCommon commons.now }
    ensures commons { IfOk result (λ found. spec.commons_of found.items ≡ commons.now) }
    ensures floors { IfOk result (λ found. spec.HaveFloors found.items) }
{
    let mut found = walked_back(alloc, commons)?;
    found.reverse();
    Ok(found)
}

/// Whether two members are turned, of which the first one comes first in the first sheet.
fn is_turned(w: &Walked<'_>, x: &Walked<'_>) -> bool
    requires first { IsReadyCommon w.now.common }
    requires second { IsReadyCommon x.now.common }
    ensures { result ≡ turned.is_turned w.now.common x.now.common }
{
    let first = w.common;
    let second = x.common;
    second.there < first.there && commons_weigh(first, &w.weight, second, &x.weight)
}

/// Tells a member and a later one, if they are turned.
#[tactic(auto, using(sheet_order::proofs::ForCallers::stays_itself, crate::proofs::Tells::told_turned, crate::proofs::Tells::told_unturned))]
fn tell_one<'a>(
    pairs: &mut Pairs,
    limit: u32,
    told: &mut Vec<Told<'a>>,
    w: &Walked<'a>,
    x: &Walked<'a>,
) -> Result<(), AllocError>
    requires first { IsReadyCommon w.now.common }
    requires second { IsReadyCommon x.now.common }
    ensures stays { Stays pairs.old pairs.new }
    ensures tells { OnOk result (spec.TellsAfter limit pairs.new told.old.items (turned.turned_with w.now.common (x.now.common ∷ [])) told.new.items) }
{
    if is_turned(w, x) {
        tell(pairs, limit, told, w.common, x.common)
    } else {
        Ok(())
    }
}

/// Whether a member, and each one after it, comes after another one in the second sheet.
fn is_past(w: &Walked<'_>, x: &Walked<'_>) -> bool
    ensures { result ≡ nat_le w.now.common.there x.now.floor }
{
    let common = w.common;
    common.there <= x.floor
}

/// Whether no more couples of a member are told with another one and those after it: each of them comes after it, or so
/// many are told.
fn is_over(w: &Walked<'_>, x: &Walked<'_>, limit: u32, told: &[Told<'_>]) -> bool
    ensures { result ≡ (nat_le w.now.common.there x.now.floor || nat_le limit (length told.now)) }
{
    is_past(w, x) || is_full(limit, told)
}

/// Tells a member and those later ones with which it is turned.
#[tactic(auto, using(crate::proofs::Way::way_begins, crate::proofs::Way::way_goes_on, crate::proofs::Way::way_is_gone))]
fn tell_with<'a>(
    pairs: &mut Pairs,
    limit: u32,
    told: &mut Vec<Told<'a>>,
    w: &Walked<'a>,
    later: &[Walked<'a>],
) -> Result<(), AllocError>
    requires floors { spec.HaveFloors later.now }
    requires first { IsReadyCommon w.now.common }
    requires others { AllByRecursion (λ x. IsReadyCommon x.common) later.now }
    ensures stays { Stays pairs.old pairs.new }
    ensures tells { OnOk result (spec.TellsAfter limit pairs.new told.old.items (turned.turned_with w.now.common (spec.commons_of later.now)) told.new.items) }
{
    let mut rest = later;
    'later: while let [x, others @ ..] = rest {
        if is_over(w, x, limit, told) {
            return Ok(());
        }
        tell_one(pairs, limit, told, w, x)?;
        rest = others;
    }
    Ok(())
}

/// Tells the couples of members that are turned.
#[tactic(auto, using(crate::proofs::Way::way_begins, crate::proofs::Way::way_goes_on, crate::proofs::Way::way_is_gone))]
fn tell_all<'a>(
    pairs: &mut Pairs,
    limit: u32,
    told: &mut Vec<Told<'a>>,
    members: &[Walked<'a>],
) -> Result<(), AllocError>
    requires floors { spec.HaveFloors members.now }
    requires all { AllByRecursion (λ x. IsReadyCommon x.common) members.now }
    ensures stays { Stays pairs.old pairs.new }
    ensures tells { OnOk result (spec.TellsAfter limit pairs.new told.old.items (turned.turned (spec.commons_of members.now)) told.new.items) }
{
    let mut rest = members;
    'members: while let [w, others @ ..] = rest {
        tell_with(pairs, limit, told, w, others)?;
        rest = others;
    }
    Ok(())
}

/// The couples of common members of two sheets that are told, at most so many. The members are in the order of the first
/// sheet. A couple is looked at where both weigh and come in another order in the second sheet, by the first one and then
/// by the second one. It is told unless its selectors are answered to be apart, or a couple of the same two items of the
/// first sheet or with the same kept item was told before. The answers are asked of `pairs`, the selector of the first one
/// first. All that was held there stays, also after an error. `AllocError` where memory is short.
#[tactic(auto, using(sheet_order::proofs::ForCallers::stays_itself, crate::proofs::Way::told_all))]
pub fn told_of<'a>(
    alloc: Global,
    pairs: &mut Pairs,
    commons: &'a [Common<'a>],
    limit: u32,
) -> Result<Vec<Told<'a>>, AllocError>
    requires { AllByRecursion IsReadyCommon commons.now }
    ensures stays { Stays pairs.old pairs.new }
    ensures told { IfOk result (λ told. AreTold pairs.new.answers limit [] (turned.turned commons.now) told.items) }
{
    let members = all_walked(alloc, commons)?;
    let mut told = Vec::new(alloc);
    tell_all(pairs, limit, &mut told, &members)?;
    Ok(told)
}

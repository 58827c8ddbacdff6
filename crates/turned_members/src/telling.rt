//! Which couples are told.

ghost use Rattle.std.specs.Prelude.{◌≡◌, nat_le, length, OnOk};
ghost use Rattle.std.specs.List.{list_any};
ghost use Rattle.sheet_members.specs.Ready.{IsReady};
ghost use Rattle.sheet_order.specs.Allowing.{Stays};
ghost use Rattle.turned_members.specs.Telling as spec;
ghost use Rattle.turned_members.specs.Turned.{couple};

use crate::judging::judge;
use crate::verdict::Verdict;
use overlap::Pairs;
use sheet_members::{Common, Part};
use std::alloc::AllocError;
use std::marker::Model;

/// A couple that is told: two common members that weigh and come in another order.
#[derive(Drop)]
pub struct Told<'a> {
    /// The one that comes first in the first sheet.
    pub first: &'a Common<'a>,
    /// The other one.
    pub second: &'a Common<'a>,
    /// What is found.
    pub verdict: Verdict,
}

impl<'a> Model for Told<'a> {
    ghost use Rattle.turned_members.specs.Telling as spec;

    ghost Value = { spec.Told };

    ghost view = { λ t. record { couple = record { first = t.first.now; second = t.second.now }; verdict = t.verdict } };
}

/// Whether two members are of one item of the first sheet.
fn same_item(c: &Common<'_>, d: &Common<'_>) -> bool
    ensures { result ≡ spec.same_item c.now d.now }
{
    let one = c.here();
    let two = d.here();
    one.block() == two.block() && one.item == two.item
}

/// Whether a member is a kept item.
fn is_kept(c: &Common<'_>) -> bool
    ensures { result ≡ spec.is_kept c.now }
{
    let o = c.here();
    match o.part {
        Part::Pair(_, _) => false,
        Part::Kept(_) => true,
    }
}

/// Whether a kept item is one of two members.
fn is_kept_in(c: &Common<'_>, d: &Common<'_>, kept: &Common<'_>) -> bool
    ensures { result ≡ spec.is_kept_in (couple c.now d.now) kept.now }
{
    is_kept(kept) && (same_item(kept, c) || same_item(kept, d))
}

/// Whether a couple that is told is of the same two items as another one, or has the same kept item.
fn covers(told: &Told<'_>, c: &Common<'_>, d: &Common<'_>) -> bool
    ensures { result ≡ spec.covers told.now.couple (couple c.now d.now) }
{
    (same_item(told.first, c) && same_item(told.second, d))
        || (is_kept_in(c, d, told.first) || is_kept_in(c, d, told.second))
}

/// Whether so many couples are told.
pub(crate) fn is_full(limit: u32, told: &[Told<'_>]) -> bool
    ensures { result ≡ nat_le limit (length told.now) }
{
    limit as usize <= told.len()
}

/// Whether one of the couples that are told covers another one.
fn is_covered(told: &[Told<'_>], c: &Common<'_>, d: &Common<'_>) -> bool
    ensures { result ≡ list_any (λ t. spec.covers t.couple (couple c.now d.now)) told.now }
{
    told.iter().any(|t| covers(t, c, d))
}

/// Tells a couple that is turned, unless so many are told, one that is told covers it, or its selectors are apart.
#[tactic(auto, using(sheet_order::proofs::ForCallers::stays_itself))]
pub(crate) fn tell<'a>(
    pairs: &mut Pairs,
    limit: u32,
    told: &mut Vec<Told<'a>>,
    first: &'a Common<'a>,
    second: &'a Common<'a>,
) -> Result<(), AllocError>
    requires first { IsReady first.now.mine.occurrence }
    requires second { IsReady second.now.mine.occurrence }
    ensures stays { Stays pairs.old pairs.new }
    ensures steps { OnOk result (spec.Steps pairs.new.answers limit told.old.items (couple first.now second.now) told.new.items) }
{
    if is_full(limit, told) || is_covered(told, first, second) {
        return Ok(());
    }
    match judge(pairs, first, second)? {
        None => Ok(()),
        Some(verdict) => {
            told.push(Told {
                first,
                second,
                verdict,
            })?;
            Ok(())
        }
    }
}

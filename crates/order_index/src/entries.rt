//! The entries of what a step reverses.

ghost use Rattle.std.specs.Prelude.{◌≡◌, ◌++◌, ◌∷◌, [], IfOk, OnOk, map};
ghost use Rattle.std.specs.List.{AllByRecursion, filter, flat_map};
ghost use Rattle.order_index.specs.Afterwards.{after};
ghost use Rattle.order_index.specs.Listed.{HasAllReversed, IsChange, IsKeptAt, IsListed, IsMoving};
ghost use Rattle.order_laws.specs.Reversed as order;

use crate::marked::{Marked, MarkedKept};
use crate::step_window::StepWindow;
use crate::turning::{is_turned, is_turned_kept};
use sheet_order::{Counterpart, Reversal};
use std::alloc::{AllocError, Global};

/// Puts a moved pair and another one after the entries, if they are reversed.
fn push_if_turned<'a>(
    found: &mut Vec<Reversal<'a>>,
    change: &StepWindow<'_>,
    p: &Marked<'a>,
    q: &Marked<'a>,
) -> Result<(), AllocError>
    requires change { IsChange change.now.window change.now.step }
    requires first { IsMoving change.now.window.items.now change.now.step p.now }
    requires second { IsListed change.now.window.items.now q.now }
    ensures { OnOk result (found.new.items ≡ found.old.items ++ map (order.with_pair p.now)
        (filter (λ x. order.is_reversed change.now.window.items.now (after change.now.window.items.now change.now.step) p.now.pair x.pair) (q.now ∷ []))) }
{
    if is_turned(change, p, q) {
        found.push(Reversal {
            moved: p.pair.copy(),
            other: Counterpart::Pair(q.pair.copy()),
        })?;
    }
    Ok(())
}

/// Puts the entries of a moved pair and other pairs after the others.
#[tactic(auto, using(sheet_order::proofs::ForCallers::map_append, sheet_order::proofs::ForCallers::filter_append))]
fn push_turned<'a>(
    found: &mut Vec<Reversal<'a>>,
    change: &StepWindow<'_>,
    p: &Marked<'a>,
    pairs: &[Marked<'a>],
) -> Result<(), AllocError>
    requires change { IsChange change.now.window change.now.step }
    requires first { IsMoving change.now.window.items.now change.now.step p.now }
    requires all { AllByRecursion (IsListed change.now.window.items.now) pairs.now }
    ensures { OnOk result (found.new.items ≡ found.old.items ++ map (order.with_pair p.now)
        (filter (λ x. order.is_reversed change.now.window.items.now (after change.now.window.items.now change.now.step) p.now.pair x.pair) pairs.now)) }
{
    for q in pairs {
        push_if_turned(found, change, p, q)?;
    }
    Ok(())
}

/// Puts a moved pair and a kept item after the entries, if they are reversed.
fn push_if_kept_turned<'a>(
    found: &mut Vec<Reversal<'a>>,
    change: &StepWindow<'_>,
    p: &Marked<'a>,
    kept: &MarkedKept<'_>,
) -> Result<(), AllocError>
    requires change { IsChange change.now.window change.now.step }
    requires first { IsMoving change.now.window.items.now change.now.step p.now }
    requires second { IsKeptAt change.now.window.items.now kept.now }
    ensures { OnOk result (found.new.items ≡ found.old.items ++ map (order.with_kept p.now)
        (filter (order.is_reversed_kept change.now.window.items.now (after change.now.window.items.now change.now.step) p.now.pair) (kept.now ∷ []))) }
{
    if is_turned_kept(change, p, kept) {
        found.push(Reversal {
            moved: p.pair.copy(),
            other: Counterpart::Kept(kept.number),
        })?;
    }
    Ok(())
}

/// Puts the entries of a moved pair and kept items after the others.
#[tactic(auto, using(sheet_order::proofs::ForCallers::map_append, sheet_order::proofs::ForCallers::filter_append))]
fn push_kept_turned<'a>(
    found: &mut Vec<Reversal<'a>>,
    change: &StepWindow<'_>,
    p: &Marked<'a>,
    kept: &[MarkedKept<'_>],
) -> Result<(), AllocError>
    requires change { IsChange change.now.window change.now.step }
    requires first { IsMoving change.now.window.items.now change.now.step p.now }
    requires all { AllByRecursion (IsKeptAt change.now.window.items.now) kept.now }
    ensures { OnOk result (found.new.items ≡ found.old.items ++ map (order.with_kept p.now)
        (filter (order.is_reversed_kept change.now.window.items.now (after change.now.window.items.now change.now.step) p.now.pair) kept.now)) }
{
    for k in kept {
        push_if_kept_turned(found, change, p, k)?;
    }
    Ok(())
}

/// Puts all that a moved pair is reversed with after the entries. The pairs that it is reversed with are among these.
fn push_turned_with<'a>(
    found: &mut Vec<Reversal<'a>>,
    change: &StepWindow<'_>,
    p: &Marked<'a>,
    pairs: &[Marked<'a>],
    kept: &[MarkedKept<'_>],
) -> Result<(), AllocError>
    requires change { IsChange change.now.window change.now.step }
    requires moving { IsMoving change.now.window.items.now change.now.step p.now }
    requires listed { AllByRecursion (IsListed change.now.window.items.now) pairs.now }
    requires all { HasAllReversed change.now.window.items.now change.now.step pairs.now }
    requires kept { AllByRecursion (IsKeptAt change.now.window.items.now) kept.now }
    requires all_kept { kept.now ≡ order.kept_from 0 change.now.window.items.now }
    ensures { OnOk result (found.new.items ≡ found.old.items ++ order.reversed_with change.now.window.items.now (after change.now.window.items.now change.now.step) p.now) }
{
    push_turned(found, change, p, pairs)?;
    push_kept_turned(found, change, p, kept)
}

/// All that moved pairs are reversed with, pair by pair.
#[tactic(auto, using(sheet_order::proofs::ForCallers::flat_map_append))]
pub(crate) fn entries<'a>(
    alloc: Global,
    change: &StepWindow<'_>,
    moved: &[Marked<'a>],
    pairs: &[Marked<'a>],
    kept: &[MarkedKept<'_>],
) -> Result<Vec<Reversal<'a>>, AllocError>
    requires change { IsChange change.now.window change.now.step }
    requires moving { AllByRecursion (IsMoving change.now.window.items.now change.now.step) moved.now }
    requires listed { AllByRecursion (IsListed change.now.window.items.now) pairs.now }
    requires all { HasAllReversed change.now.window.items.now change.now.step pairs.now }
    requires kept { AllByRecursion (IsKeptAt change.now.window.items.now) kept.now }
    requires all_kept { kept.now ≡ order.kept_from 0 change.now.window.items.now }
    ensures { IfOk result (λ found. found.items ≡ flat_map (order.reversed_with change.now.window.items.now (after change.now.window.items.now change.now.step)) moved.now) }
{
    let mut found = Vec::new(alloc);
    for p in moved {
        push_turned_with(&mut found, change, p, pairs, kept)?;
    }
    Ok(found)
}

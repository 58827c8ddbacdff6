//! The first that blocks of what moved pairs face in a window.

ghost use Rattle.std.specs.Prelude.{◌≡◌, ◌≤◌, ◌<◌, ◌+◌, ◌-◌, IfOk, Some, bit_and, length, slice_get, true};
ghost use Rattle.std.specs.List.{Contains};
ghost use Rattle.css_model.specs.declared.sheet.Item as declared;
ghost use Rattle.related_props.specs.Masks.{item_mask};
ghost use Rattle.step_obstacles.specs.Asking.{Stays};
ghost use Rattle.step_obstacles.specs.Blocked.{IsToldOf};
ghost use Rattle.step_obstacles.specs.declared.facing.Source as rules;
ghost use Rattle.step_obstacles.specs.Known.{IsKnown};
ghost use Rattle.step_obstacles.specs.Spans.{IsEnough, IsWithin};
ghost use Rattle.step_obstacles.specs.Turns as turns;

use crate::bounded_pairs::BoundedPairs;
use crate::facing::Source;
use crate::known::{Known, nothing_known};
use crate::searching::of_source;
use css_model::Item;
use obstacles::{Obstacle, Stopped};
use std::alloc::Global;
use window_order::Window;

/// What blocks of some rules with an item of this mask.
fn of_sources(
    alloc: Global,
    pairs: &mut BoundedPairs,
    known: &mut Known,
    window: &Window<'_>,
    sources: &[Source<'_>],
    item: &Item,
    number: u32,
    mask: u64,
) -> Result<Option<Obstacle>, Stopped>
    requires askable { turns.IsAskable window.now.items.now }
    requires sources { turns.AreSources window.now.items.now sources.now }
    requires masked { turns.AreMasked sources.now }
    requires item { turns.IsItemOf window.now number item.now }
    requires mask { mask ≡ item_mask item.now }
    requires known { IsKnown window.now known.old }
    ensures stays { Stays pairs.old pairs.new }
    ensures told { IfOk result (λ found. IsToldOf pairs.new.answers window.now (turns.OfSources window.now.items.now number item.now sources.now) found) }
    ensures known { IsKnown window.now known.new }
{
    for source in sources {
        if let Some(found) = of_source(alloc, pairs, known, window, source, item, number, mask)? {
            return Ok(Some(found));
        }
    }
    Ok(None)
}

/// The mask of the item of this number.
#[tactic(auto, using(crate::proofs::Masked::mask_at))]
fn mask_of(window: &Window<'_>, number: usize) -> u64
    requires { number < length window.now.items.now }
    ensures { (item : declared.Item) → slice_get window.now.items.now number ≡ Some item → result ≡ item_mask item }
{
    window.masks[number].families
}

/// Whether no bit of a mask is in the masks of some rules.
fn have_none_of(sources: &[Source<'_>], families: u64) -> bool
    ensures { result ≡ true → (s : rules.Source) → Contains sources.now s → bit_and s.mask families ≡ 0 }
{
    sources.iter().all(|source| source.mask & families == 0)
}

/// Returns `true` only if the item of this number sets nothing that is related to what some rules set. Most items do not.
#[tactic(auto, using(crate::proofs::Masked::mask_at))]
fn is_passed(window: &Window<'_>, sources: &[Source<'_>], number: usize) -> bool
    requires { number < length window.now.items.now }
    ensures { result ≡ true → (item : declared.Item) → slice_get window.now.items.now number ≡ Some item → (s : rules.Source) → Contains sources.now s → bit_and s.mask (item_mask item) ≡ 0 }
{
    have_none_of(sources, mask_of(window, number))
}

/// What blocks of some rules with the item of this number, which is looked at only if its mask tells that it may.
fn of_turn(
    alloc: Global,
    pairs: &mut BoundedPairs,
    known: &mut Known,
    window: &Window<'_>,
    sources: &[Source<'_>],
    number: usize,
) -> Result<Option<Obstacle>, Stopped>
    requires askable { turns.IsAskable window.now.items.now }
    requires sources { turns.AreSources window.now.items.now sources.now }
    requires masked { turns.AreMasked sources.now }
    requires above { window.now.start ≤ number }
    requires below { number ≤ window.now.last }
    requires known { IsKnown window.now known.old }
    ensures stays { Stays pairs.old pairs.new }
    ensures told { IfOk result (λ found. IsToldOf pairs.new.answers window.now (turns.OfNumber window.now.items.now sources.now number) found) }
    ensures known { IsKnown window.now known.new }
{
    if is_passed(window, sources, number) {
        return Ok(None);
    }
    of_number(alloc, pairs, known, window, sources, number)
}

/// What blocks of some rules with the item of this number.
fn of_number(
    alloc: Global,
    pairs: &mut BoundedPairs,
    known: &mut Known,
    window: &Window<'_>,
    sources: &[Source<'_>],
    number: usize,
) -> Result<Option<Obstacle>, Stopped>
    requires askable { turns.IsAskable window.now.items.now }
    requires sources { turns.AreSources window.now.items.now sources.now }
    requires masked { turns.AreMasked sources.now }
    requires above { window.now.start ≤ number }
    requires below { number ≤ window.now.last }
    requires known { IsKnown window.now known.old }
    ensures stays { Stays pairs.old pairs.new }
    ensures told { IfOk result (λ found. IsToldOf pairs.new.answers window.now (turns.OfNumber window.now.items.now sources.now number) found) }
    ensures known { IsKnown window.now known.new }
{
    let item = &window.items[number];
    let mask = mask_of(window, number);
    of_sources(
        alloc,
        pairs,
        known,
        window,
        sources,
        item,
        number as u32,
        mask,
    )
}

/// Which items of a window are looked at, by their numbers.
#[derive(Clone, Copy)]
pub(crate) struct Span {
    /// The first one.
    pub(crate) first: usize,
    /// The number after the last one.
    pub(crate) end: usize,
}

/// How many items these are.
fn count_of(span: Span) -> usize
    requires { span.first ≤ span.end }
    ensures { result ≡ span.end - span.first }
{
    span.end - span.first
}

/// The number of the item whose turn it is: upwards from the last one, or downwards from the first one.
fn number_of(span: Span, upwards: bool, turn: usize) -> usize
    requires { span.first + turn < span.end }
    ensures { result ≡ turns.number_of span upwards turn }
{
    if upwards {
        span.end - 1 - turn
    } else {
        span.first + turn
    }
}

/// What blocks of some rules with all items of a window. Those of a span are looked at, upwards or downwards: they are
/// enough.
pub(crate) fn in_window(
    alloc: Global,
    pairs: &mut BoundedPairs,
    window: &Window<'_>,
    span: Span,
    sources: &[Source<'_>],
    upwards: bool,
) -> Result<Option<Obstacle>, Stopped>
    requires askable { turns.IsAskable window.now.items.now }
    requires within { IsWithin window.now span }
    requires enough { IsEnough window.now span sources.now }
    requires sources { turns.AreSources window.now.items.now sources.now }
    requires masked { turns.AreMasked sources.now }
    ensures stays { Stays pairs.old pairs.new }
    ensures told { IfOk result (λ found. IsToldOf pairs.new.answers window.now (turns.OfWindow window.now sources.now) found) }
{
    let count = count_of(span);
    let mut known = nothing_known(alloc);
    for turn in 0..count {
        let number = number_of(span, upwards, turn);
        if let Some(found) = of_turn(alloc, pairs, &mut known, window, sources, number)? {
            return Ok(Some(found));
        }
    }
    Ok(None)
}

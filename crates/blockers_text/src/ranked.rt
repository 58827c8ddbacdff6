//! Items that stop steps, ranked by what these would save.

ghost use Rattle.std.specs.Prelude.{◌≡◌, ◌≤◌, ◌++◌, length, nat_lt, ◌||◌, ◌&&◌, ◌==◌, IfOk, OnOk};
ghost use Rattle.std.specs.List.{enumerate_from, flat_map};
ghost use Rattle.std.specs.Ordering.{is_lt};
ghost use Rattle.css_model.specs.Sheets.Limits.{max_bytes};
ghost use Rattle.css_model.specs.Sheets.Sound.{IsSound, IsSoundItem};
ghost use Rattle.blockers_text.specs.BlockersTexts as order;
ghost use Rattle.blockers_text.specs.Lines as spec;

use crate::printing::item_lines;
use crate::seen::Seen;
use crate::tally::Tally;
use css_model::Item;
use std::alloc::{AllocError, Global};
use std::cmp::Ordering;
use std::marker::Model;

/// The lines of an item, with what it is ranked by: how many bytes the steps would save that it stops, and how many
/// there are.
#[derive(Drop)]
pub(crate) struct Ranked {
    pub(crate) bytes: u128,
    pub(crate) steps: u128,
    pub(crate) lines: Vec<u8>,
}

impl Model for Ranked {
    ghost use Rattle.blockers_text.specs.Lines as spec;

    ghost Value = { spec.Ranked };

    ghost view = { λ r. record { bytes = r.bytes; steps = r.steps; lines = r.lines.items } };
}

/// Puts an item of this tally after others, if it stops a step.
fn push_item(
    found: &mut Vec<Ranked>,
    alloc: Global,
    level: &Seen<'_>,
    item: &Item,
    tally: &Tally,
) -> Result<(), AllocError>
    requires length { length level.now.source ≤ max_bytes }
    requires sound { IsSound level.now.source level.now.items }
    requires item { IsSoundItem level.now.source item.now }
    ensures { OnOk result (found.new.items ≡ found.old.items ++ spec.ranked_by level.now item.now tally.now) }
{
    if tally.steps == 0 {
        return Ok(());
    }
    found.push(Ranked {
        bytes: tally.bytes,
        steps: tally.steps,
        lines: item_lines(alloc, level, item, tally)?,
    })?;
    Ok(())
}

/// Puts those of a level's items that stop a step after others. They have these tallies.
pub(crate) fn push_items(
    found: &mut Vec<Ranked>,
    alloc: Global,
    level: &Seen<'_>,
    tallies: &[Tally],
) -> Result<(), AllocError>
    requires length { length level.now.source ≤ max_bytes }
    requires sound { IsSound level.now.source level.now.items }
    requires many { length tallies.now ≡ length level.now.items }
    ensures { OnOk result (found.new.items ≡ found.old.items ++ spec.ranked_with level.now tallies.now) }
{
    let mut number = 0;
    let mut rest = level.items;
    'items: while let [item, others @ ..] = rest {
        push_item(found, alloc, level, item, &tallies[number])?;
        number += 1;
        rest = others;
    }
    Ok(())
}

/// Whether the first of two numbers is greater. Where they are equal, `rest` decides.
fn decides(x: u128, y: u128, rest: bool) -> bool
    ensures { result ≡ (nat_lt y x || x == y && rest) }
{
    y < x || x == y && rest
}

/// Whether an item comes before another one.
fn comes_first(x: &Ranked, y: &Ranked) -> bool
    ensures { result ≡ order.comes_first x.now y.now }
{
    let steps = decides(x.steps, y.steps, false);
    decides(x.bytes, y.bytes, steps)
}

/// How two items are put.
fn compare(x: &Ranked, y: &Ranked) -> Ordering
    ensures { is_lt result ≡ order.comes_first x.now y.now }
{
    if comes_first(x, y) {
        Ordering::Less
    } else if comes_first(y, x) {
        Ordering::Greater
    } else {
        Ordering::Equal
    }
}

/// Items in their order.
pub(crate) fn in_order(found: Vec<Ranked>) -> Result<Vec<Ranked>, AllocError>
    ensures { IfOk result (λ sorted. order.AreRanked found.items sorted.items) }
{
    let mut sorted = found;
    sorted.sort_by(
        |x, y|
            ensures { is_lt result ≡ order.comes_first x.now y.now }
        { compare(x, y) },
    )?;
    Ok(sorted)
}

/// Appends the lines of items.
pub(crate) fn push_lines(out: &mut Vec<u8>, items: &[Ranked]) -> Result<(), AllocError>
    ensures { OnOk result (out.new.items ≡ out.old.items ++ flat_map (λ r. r.lines) items.now) }
{
    let mut rest = items;
    'items: while let [item, others @ ..] = rest {
        out.extend_from_slice(&item.lines)?;
        rest = others;
    }
    Ok(())
}

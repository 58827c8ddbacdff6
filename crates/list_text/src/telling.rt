//! The line of an item.

ghost use Rattle.std.specs.Prelude.{◌≡◌, ◌+◌, ◌++◌, ◌∷◌, [], decimal, if◌then◌else◌, codes, OnOk};
ghost use Rattle.css_model.specs.Sheets.Sheet as sheet;
ghost use Rattle.css_model.specs.Sheets.Sound.{IsSoundItem};
ghost use Rattle.line_places.specs.Lines.{place_of, place_text};
ghost use Rattle.line_places.specs.Shown as spec_shown;
ghost use Rattle.media_groups.specs.Heads.{head_text};
ghost use Rattle.list_text.specs.ListTexts as spec;

use crate::level::ListedLevel;
use css_model::{Item, SelItem};
use itoa::Buffer;
use line_places::{Lines, put_place, put_shown};
use media_groups::put_head;
use std::alloc::{AllocError, Global};

/// Appends a number in decimal.
fn push_number(out: &mut Vec<u8>, number: usize) -> Result<(), AllocError>
    ensures { OnOk result (out.new.items ≡ out.old.items ++ decimal number) }
{
    let mut buffer = Buffer::new();
    out.extend_from_slice(buffer.format(number).as_bytes())
}

/// Appends the number of an item of a level, from 1. In a body it comes after that of its block and a dot.
fn push_item_number(out: &mut Vec<u8>, block: Option<u32>, number: usize) -> Result<(), AllocError>
    ensures { OnOk result (out.new.items ≡ out.old.items ++ spec.number_text block number) }
{
    match block {
        None => push_number(out, number),
        Some(block) => {
            push_number(out, block as usize + 1)?;
            out.extend_from_slice(b".")?;
            push_number(out, number)
        }
    }
}

/// Where the first of some selectors begins.
fn start_of_first(selectors: &[SelItem]) -> u32
    ensures { result ≡ sheet.start_of_first selectors.now }
{
    match selectors {
        [] => 0,
        [first, ..] => first.piece.start,
    }
}

/// Where an item begins in the bytes of its level.
fn start_of(item: &Item) -> u32
    ensures { result ≡ sheet.start_of item.now }
{
    match item {
        Item::Rule(rule) => start_of_first(&rule.selectors),
        Item::KeptRule(rule) => rule.piece.start,
        Item::KeptBlock(piece) => piece.start,
    }
}

/// The word for a kept block.
fn block_word(opened: bool) -> &'static [u8]
    ensures { result.now ≡ (if opened then codes "media" else codes "block") }
{
    if opened { b"media" } else { b"block" }
}

/// Appends the kind of an item.
fn push_kind(out: &mut Vec<u8>, opened: bool, item: &Item) -> Result<(), AllocError>
    ensures { OnOk result (out.new.items ≡ out.old.items ++ spec.kind_text opened item.now) }
{
    match item {
        Item::Rule(_) => out.extend_from_slice(b"rule"),
        Item::KeptRule(rule) => {
            out.extend_from_slice(b"kept:")?;
            push_number(out, rule.reason as usize)
        }
        Item::KeptBlock(_) => out.extend_from_slice(block_word(opened)),
    }
}

/// Appends the head of an item, as it is shown on a line.
fn push_head(
    out: &mut Vec<u8>,
    alloc: Global,
    level: &ListedLevel<'_>,
    item: &Item,
) -> Result<(), AllocError>
    requires { IsSoundItem level.now.source item.now }
    ensures { OnOk result (out.new.items ≡ out.old.items ++ spec_shown.shown (head_text level.now.source item.now)) }
{
    let mut head = Vec::new(alloc);
    put_head(alloc, &mut head, &level.reading, item)?;
    put_shown(out, &head)
}

/// Appends where an item begins in the sheet.
fn push_start(
    out: &mut Vec<u8>,
    lines: &Lines<'_>,
    level: &ListedLevel<'_>,
    item: &Item,
) -> Result<(), AllocError>
    ensures { OnOk result (out.new.items ≡ out.old.items
        ++ place_text (place_of lines.now.text.now (level.now.start + sheet.start_of item.now))) }
{
    let at = level.start as usize + start_of(item) as usize;
    put_place(out, lines.place(at))
}

/// Appends the line of an item with its end.
pub(crate) fn put_line(
    out: &mut Vec<u8>,
    alloc: Global,
    lines: &Lines<'_>,
    level: &ListedLevel<'_>,
    opened: bool,
    number: usize,
    item: &Item,
) -> Result<(), AllocError>
    requires { IsSoundItem level.now.source item.now }
    ensures { OnOk result (out.new.items ≡ out.old.items
        ++ (spec.item_line lines.now.text.now level.now opened (number, item.now) ++ 10 ∷ [])) }
{
    push_item_number(out, level.block, number)?;
    out.extend_from_slice(b" ")?;
    push_start(out, lines, level, item)?;
    out.extend_from_slice(b" ")?;
    push_kind(out, opened, item)?;
    out.extend_from_slice(b" ")?;
    push_head(out, alloc, level, item)?;
    out.extend_from_slice(b"\n")?;
    Ok(())
}

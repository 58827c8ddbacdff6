//! The texts and places of what occurs.

ghost use Rattle.std.specs.Prelude.{◌≡◌, ◌++◌, IfOk, OnOk};
ghost use Rattle.css_model.specs.Sheets.Sheet as sheet;
ghost use Rattle.sheet_members.specs.Ready.{IsReady};
ghost use Rattle.sheet_members.specs.Seen.{part_seen};
ghost use Rattle.diff_text.specs.Lines as spec;

use css_model::{Item, SelItem};
use css_print::{print_decl, print_selector};
use line_places::{Lines, put_place, put_shown};
use media_groups::put_head;
use sheet_members::{Occurrence, Part};
use std::alloc::{AllocError, Global};

/// Appends the text of what occurs, in the bytes of its layer: of a pair a rule, of a kept item its head.
fn put_part(out: &mut Vec<u8>, alloc: Global, o: &Occurrence<'_>) -> Result<(), AllocError>
    requires { IsReady o.now }
    ensures { OnOk result (out.new.items ≡ out.old.items ++ spec.part_text o.now.layer.source o.now.part) }
{
    let layer = o.layer;
    let reading = &layer.reading;
    match o.part {
        Part::Pair(s, d) => {
            let selector = print_selector(alloc, s, reading.source)?;
            let declaration = print_decl(alloc, d, reading.source)?;
            out.extend_from_slice(&selector)?;
            out.push(b'{')?;
            out.extend_from_slice(&declaration)?;
            out.push(b'}')?;
            Ok(())
        }
        Part::Kept(item) => put_head(alloc, out, reading, item),
    }
}

/// The text of what occurs, in the block around it.
fn text_of(alloc: Global, o: &Occurrence<'_>) -> Result<Vec<u8>, AllocError>
    requires { IsReady o.now }
    ensures { IfOk result (λ text. text.items ≡ spec.text_of o.now) }
{
    let layer = o.layer;
    let mut text = Vec::new(alloc);
    match layer.shell {
        None => {
            put_part(&mut text, alloc, o)?;
            Ok(text)
        }
        Some(shell) => {
            text.extend_from_slice(shell)?;
            text.push(b'{')?;
            put_part(&mut text, alloc, o)?;
            text.push(b'}')?;
            Ok(text)
        }
    }
}

/// Where the first of some selectors begins.
fn start_of_first(selectors: &[SelItem]) -> u32
    ensures { result ≡ sheet.start_of_first selectors.now }
{
    match selectors {
        [] => 0,
        [first, ..] => first.piece.start,
    }
}

/// Where an item begins in the bytes of its layer.
fn start_of(item: &Item) -> u32
    ensures { result ≡ sheet.start_of item.now }
{
    match item {
        Item::Rule(rule) => start_of_first(&rule.selectors),
        Item::KeptRule(rule) => rule.piece.start,
        Item::KeptBlock(piece) => piece.start,
    }
}

/// Where what occurs begins in the bytes of its layer.
fn start_in(part: Part<'_>) -> u32
    ensures { result ≡ spec.start_in (part_seen part.entry) }
{
    match part {
        Part::Pair(_, d) => d.name.start,
        Part::Kept(item) => start_of(item),
    }
}

/// Appends where an occurrence begins, by line and column.
pub(crate) fn put_start(
    out: &mut Vec<u8>,
    lines: &Lines<'_>,
    o: &Occurrence<'_>,
) -> Result<(), AllocError>
    ensures { OnOk result (out.new.items ≡ out.old.items ++ spec.place lines.now.text.now o.now) }
{
    let layer = o.layer;
    let at = layer.start as usize + start_in(o.part) as usize;
    put_place(out, lines.place(at))
}

/// Appends the place and the text of an occurrence.
pub(crate) fn put_spot(
    out: &mut Vec<u8>,
    alloc: Global,
    lines: &Lines<'_>,
    o: &Occurrence<'_>,
) -> Result<(), AllocError>
    requires { IsReady o.now }
    ensures { OnOk result (out.new.items ≡ out.old.items ++ spec.spot lines.now.text.now o.now) }
{
    let text = text_of(alloc, o)?;
    put_start(out, lines, o)?;
    out.push(b' ')?;
    put_shown(out, &text)
}

/// Appends the declaration of a pair after a space; of a kept item nothing.
pub(crate) fn put_declaration(
    out: &mut Vec<u8>,
    alloc: Global,
    o: &Occurrence<'_>,
) -> Result<(), AllocError>
    requires { IsReady o.now }
    ensures { OnOk result (out.new.items ≡ out.old.items ++ spec.declaration_part o.now.layer o.now.part) }
{
    let layer = o.layer;
    let reading = &layer.reading;
    match o.part {
        Part::Pair(_, d) => {
            let declaration = print_decl(alloc, d, reading.source)?;
            out.push(b' ')?;
            put_shown(out, &declaration)
        }
        Part::Kept(_) => Ok(()),
    }
}

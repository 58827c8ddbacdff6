//! The layers of a sheet: the sheet itself, and the bodies of its opened blocks.

ghost use Rattle.std.specs.Prelude.{◌≡◌, ◌<◌, Ok, IfOk, length, map};
ghost use Rattle.std.specs.List.{AllByRecursion};
ghost use Rattle.css_model.specs.Sheets.Sheet.{sheet_of};
ghost use Rattle.media_groups.specs.Laws.{IsBlockOf};
ghost use Rattle.media_groups.specs.Opened.{opened_of};
ghost use Rattle.sheet_members.specs.Layers as spec;

use crate::heads::BlockHead;
use css_model::{Item, Sheet};
use media_groups::{Media, Reading, opened_blocks_are_sheets, reading_of};
use std::alloc::{AllocError, Global};
use std::marker::Model;

/// A sheet, or the body of an opened block as a sheet of its own.
#[derive(Drop)]
pub struct Layer<'a> {
    /// The number of the item whose body it is, from 0.
    pub block: Option<u32>,
    /// The kept text of the head of that item.
    pub shell: Option<&'a [u8]>,
    /// The normal text of that head.
    pub head: Option<&'a [u8]>,
    /// Where its bytes begin in those of the sheet.
    pub start: u32,
    /// Its bytes, with their tokens.
    pub reading: Reading<'a>,
    /// Its items.
    pub items: &'a [Item],
    ghost read: { sheet_of reading.source.now ≡ Ok items.now },
}

impl<'a> Model for Layer<'a> {
    ghost use Rattle.std.specs.Option.{option_copied};
    ghost use Rattle.sheet_members.specs.Layers as spec;

    ghost Value = { spec.Layer };

    ghost view = { λ l. record {
      block = l.block;
      shell = option_copied l.shell;
      head = option_copied l.head;
      start = l.start;
      source = l.reading.source.now;
      items = l.items.now;
    } };
}

/// The sheet itself, which was read from this source. `AllocError` where memory is short.
pub fn outer_layer<'a>(
    alloc: Global,
    source: &'a [u8],
    sheet: &'a Sheet,
) -> Result<Layer<'a>, AllocError>
    requires { sheet_of source.now ≡ Ok sheet.now.items }
    ensures { IfOk result (λ layer. layer ≡ spec.outer_layer source.now sheet.now.items) }
{
    let reading = reading_of(alloc, sheet, source)?;
    Ok(Layer {
        block: None,
        shell: None,
        head: None,
        start: 0,
        reading,
        items: &sheet.items,
    })
}

/// The body of an opened block with this head.
fn body_layer<'a>(
    alloc: Global,
    source: &'a [u8],
    block: &'a Media,
    head: &'a BlockHead,
) -> Result<Layer<'a>, AllocError>
    requires block { IsBlockOf source.now block.now }
    requires head { head.now ≡ spec.head_texts source.now block.now }
    ensures { IfOk result (λ layer. layer ≡ spec.body_layer source.now block.now) }
{
    let reading = reading_of(alloc, &block.sheet, block.body.text(source))?;
    Ok(Layer {
        block: Some(block.item),
        shell: Some(head.shell.bytes()),
        head: Some(head.head.bytes()),
        start: block.body.start,
        reading,
        items: &block.sheet.items,
    })
}

/// The bodies of these opened blocks of a source, with their heads.
fn layers_of<'a>(
    alloc: Global,
    source: &'a [u8],
    media: &'a [Media],
    heads: &'a [BlockHead],
) -> Result<Vec<Layer<'a>>, AllocError>
    requires blocks { AllByRecursion (IsBlockOf source.now) media.now }
    requires heads { heads.now ≡ map (spec.head_texts source.now) media.now }
    ensures { IfOk result (λ layers. layers.items ≡ map (spec.body_layer source.now) media.now) }
{
    let mut layers = Vec::new(alloc);
    for number in 0..media.len() {
        layers.push(body_layer(alloc, source, &media[number], &heads[number])?)?;
    }
    Ok(layers)
}

/// The bodies of the opened blocks of a sheet, with their heads. The sheet was read from this source. `AllocError` where
/// memory is short.
pub fn bodies_of<'a>(
    alloc: Global,
    source: &'a [u8],
    sheet: &'a Sheet,
    media: &'a [Media],
    heads: &'a [BlockHead],
) -> Result<Vec<Layer<'a>>, AllocError>
    requires blocks { media.now ≡ opened_of sheet.now.items source.now }
    requires heads { heads.now ≡ map (spec.head_texts source.now) media.now }
    ensures { IfOk result (λ layers. layers.items ≡ spec.body_layers source.now sheet.now.items) }
{
    // A law, which does nothing.
    opened_blocks_are_sheets();
    layers_of(alloc, source, media, heads)
}

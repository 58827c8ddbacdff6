//! A level of a sheet: the sheet itself, or the body of an opened block.

use css_model::Item;
use std::marker::Model;

/// A level of a sheet.
#[derive(Drop)]
pub(crate) struct Layer<'a> {
    /// The number of the item whose body it is, from 0.
    pub(crate) block: Option<u32>,
    /// The kept text of the head of that item.
    pub(crate) head: Option<&'a [u8]>,
    /// Where its bytes begin in those of the sheet.
    pub(crate) start: u32,
    /// Its bytes.
    pub(crate) source: &'a [u8],
    /// Its items.
    pub(crate) items: &'a [Item],
}

impl<'a> Model for Layer<'a> {
    ghost use Rattle.std.specs.Option.{option_copied};
    ghost use Rattle.inspect_laws.specs.Entries as spec;

    ghost Value = { spec.Layer };

    ghost view = { λ l. record {
      block = l.block;
      head = option_copied l.head;
      start = l.start;
      source = l.source.now;
      items = l.items.now;
    } };
}

//! A planned level of a sheet that is told of: the sheet itself, or the body of an opened block.

use css_model::Item;
use line_places::Lines;
use media_groups::Reading;
use std::marker::Model;

/// A planned level of a sheet.
#[derive(Drop)]
pub(crate) struct Seen<'a> {
    /// The bytes of the sheet, with their lines.
    pub(crate) lines: &'a Lines<'a>,
    /// Where the level's bytes begin in these.
    pub(crate) start: u32,
    /// Its bytes, with their tokens.
    pub(crate) reading: &'a Reading<'a>,
    /// Its items.
    pub(crate) items: &'a [Item],
}

impl<'a> Model for Seen<'a> {
    ghost use Rattle.blockers_text.specs.Lines as spec;

    ghost Value = { spec.Seen };

    ghost view = { λ l. record {
      text = l.lines.now.text.now;
      start = l.start;
      source = l.reading.now.source.now;
      items = l.items.now;
    } };
}

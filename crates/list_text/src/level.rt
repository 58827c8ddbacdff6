//! A level of a sheet whose items are told: the sheet itself, or the body of an opened block.

use css_model::Item;
use media_groups::Reading;
use std::marker::Model;

/// A level of a sheet.
#[derive(Drop)]
pub(crate) struct ListedLevel<'a> {
    /// The number of the item whose body it is, from 0.
    pub(crate) block: Option<u32>,
    /// Where its bytes begin in those of the sheet.
    pub(crate) start: u32,
    /// Its bytes, with their tokens.
    pub(crate) reading: Reading<'a>,
    /// Its items.
    pub(crate) items: &'a [Item],
}

impl<'a> Model for ListedLevel<'a> {
    ghost use Rattle.media_groups.specs.Levels.{Level};

    ghost Value = { Level };

    ghost view = { λ l. record { block = l.block; start = l.start; source = l.reading.source.now; items = l.items.now } };
}

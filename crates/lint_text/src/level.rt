//! A level of a sheet in which something is looked for: the sheet itself, or the body of an opened block.

ghost use Rattle.std.specs.Prelude.{◌≡◌};

use css_model::Item;
use line_places::Lines;
use sheet_order::PairIndex;
use std::marker::Model;

/// A level of a sheet, with the last places of its pairs.
#[derive(Drop)]
pub(crate) struct Level<'a, 'p> {
    /// The bytes of the sheet, with their lines.
    pub(crate) lines: &'a Lines<'a>,
    /// Where the level's bytes begin in these.
    pub(crate) start: u32,
    /// Its bytes.
    pub(crate) source: &'a [u8],
    /// Its items.
    pub(crate) items: &'a [Item],
    /// The pairs of its rules, each at its last place.
    pub(crate) lasts: &'p PairIndex<'a>,
}

impl<'a, 'p> Model for Level<'a, 'p> {
    ghost use Rattle.lint_text.specs.Findings.{Seen};

    ghost Value = { Seen };

    ghost view = { λ l. record {
      text = l.lines.now.text.now;
      start = l.start;
      source = l.source.now;
      items = l.items.now;
      lasts = l.lasts.now;
    } };
}

impl<'a, 'p> Level<'a, 'p> {
    /// The level with these bytes, which begin at this place in the sheet, and these items.
    pub(crate) fn new(
        lines: &'a Lines<'a>,
        start: u32,
        source: &'a [u8],
        items: &'a [Item],
        lasts: &'p PairIndex<'a>,
    ) -> Level<'a, 'p>
        ensures { result ≡ record { text = lines.now.text.now; start = start; source = source.now; items = items.now; lasts = lasts.now } }
    {
        Level {
            lines,
            start,
            source,
            items,
            lasts,
        }
    }
}

//! What comes before the block of an item.

ghost use Rattle.std.specs.Prelude.{◌≡◌, ◌++◌, OnOk};
ghost use Rattle.css_model.specs.Sheets.Sound.{IsSoundItem};
ghost use Rattle.media_groups.specs.Heads as spec;

use crate::blocks::before_block;
use crate::printing::{put_selectors, put_tokens};
use crate::reading::Reading;
use css_model::{Item, Piece};
use std::alloc::{AllocError, Global};

/// Writes the kept text of the tokens of a piece before its block, or of all of them if it has none.
fn put_kept_head(out: &mut Vec<u8>, reading: &Reading<'_>, piece: Piece) -> Result<(), AllocError>
    ensures { OnOk result (out.new.items ≡ out.old.items ++ spec.kept_head reading.now.source.now piece) }
{
    put_tokens(out, reading.source, before_block(reading.tokens_in(piece)))
}

/// Writes the head of an item: of a style rule its printed selectors with `,` between them, of what is kept the kept text
/// of the tokens before its block, or of all of them if it has none. The item is sound for the source. `AllocError` where
/// memory runs out.
pub fn put_head(
    alloc: Global,
    out: &mut Vec<u8>,
    reading: &Reading<'_>,
    item: &Item,
) -> Result<(), AllocError>
    requires { IsSoundItem reading.now.source.now item.now }
    ensures { OnOk result (out.new.items ≡ out.old.items ++ spec.head_text reading.now.source.now item.now) }
{
    match item {
        Item::Rule(rule) => put_selectors(alloc, out, rule.selectors.as_slice(), reading.source),
        Item::KeptRule(rule) => put_kept_head(out, reading, rule.piece),
        Item::KeptBlock(piece) => put_kept_head(out, reading, *piece),
    }
}

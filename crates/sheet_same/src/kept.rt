//! The first place at which the kept items of two sheets differ.

ghost use Rattle.std.specs.Prelude.{◌≡◌, ◌<◌, ◌^◌, IfOk, length};
ghost use Rattle.std.specs.Option.{option_copied};
ghost use Rattle.css_model.specs.Sheets.Spelling as spelling;
ghost use Rattle.media_groups.specs.Printed.{begins_at};
ghost use Rattle.sheet_same.specs.Kept as spec;

use css_model::{Item, KeptRule, Piece};
use media_groups::{Media, Reading, put_piece};
use sheet_order::is_kept;
use std::alloc::{AllocError, Global};

/// The kept text of a piece.
fn kept_text(alloc: Global, reading: &Reading<'_>, piece: Piece) -> Result<Vec<u8>, AllocError>
    ensures { IfOk result (λ text. text.items ≡ spelling.kept_text reading.now.source.now piece) }
{
    let mut text = Vec::new(alloc);
    put_piece(&mut text, reading, piece)?;
    Ok(text)
}

/// Whether the kept texts of two pieces are the same.
fn same_text(
    alloc: Global,
    reading: &Reading<'_>,
    piece: Piece,
    other: &Reading<'_>,
    there: Piece,
) -> Result<bool, AllocError>
    ensures { IfOk result (λ same. same ≡ spec.same_text reading.now.source.now piece other.now.source.now there) }
{
    let text = kept_text(alloc, reading, piece)?;
    let copy = kept_text(alloc, other, there)?;
    Ok(text == copy)
}

/// Whether two kept rules have the same declarations, for the same reason.
fn same_parts(rule: &KeptRule, other: &KeptRule) -> bool
    ensures { result ≡ spec.same_parts rule.now other.now }
{
    rule.decls == other.decls && rule.reason == other.reason
}

/// Whether two kept rules say the same.
fn same_rule(
    alloc: Global,
    reading: &Reading<'_>,
    rule: &KeptRule,
    there: &Reading<'_>,
    other: &KeptRule,
) -> Result<bool, AllocError>
    ensures { IfOk result (λ same. same ≡ spec.same_rule reading.now.source.now rule.now there.now.source.now other.now) }
{
    if !same_parts(rule, other) {
        return Ok(false);
    }
    same_text(alloc, reading, rule.piece, there, other.piece)
}

/// Whether two items are kept and say the same.
fn same_kept(
    alloc: Global,
    reading: &Reading<'_>,
    item: &Item,
    there: &Reading<'_>,
    other: &Item,
) -> Result<bool, AllocError>
    ensures { IfOk result (λ same. same ≡ spec.same_kept reading.now.source.now item.now there.now.source.now other.now) }
{
    match item {
        Item::Rule(_) => Ok(false),
        Item::KeptRule(rule) => match other {
            Item::KeptRule(twin) => same_rule(alloc, reading, rule, there, twin),
            _ => Ok(false),
        },
        Item::KeptBlock(piece) => match other {
            Item::KeptBlock(twin) => same_text(alloc, reading, *piece, there, *twin),
            _ => Ok(false),
        },
    }
}

/// The first kept one of some items, and the items after it.
fn next_kept(items: &[Item]) -> Option<(&Item, &[Item])>
    ensures next { spec.NextKept items.now result }
{
    let mut rest = items;
    'rest: while let Some((first, behind)) = rest.split_first() {
        if is_kept(first) {
            return Some((first, behind));
        }
        rest = behind;
    }
    None
}

/// Whether a block begins where an item does.
fn is_block(block: &Media, item: &Item) -> bool
    ensures { result ≡ begins_at block.now.head.start item.now }
{
    match item {
        Item::KeptBlock(piece) => piece.start == block.head.start,
        _ => false,
    }
}

/// The first of some opened blocks, if an item is it, and the blocks after the item.
fn split_block<'a>(media: &'a [Media], item: &Item) -> (Option<&'a Media>, &'a [Media])
    ensures block { option_copied result.0 ≡ spec.block_of media.now item.now }
    ensures behind { result.1.now ≡ spec.blocks_behind media.now item.now }
{
    if let [block, behind @ ..] = media {
        if is_block(block, item) {
            return (Some(block), behind);
        }
    }
    (None, media)
}

/// Whether two items are kept and say the same. They are these opened blocks, if any.
fn same_item(
    alloc: Global,
    reading: &Reading<'_>,
    block: Option<&Media>,
    item: &Item,
    there: &Reading<'_>,
    twin: Option<&Media>,
    other: &Item,
) -> Result<bool, AllocError>
    ensures { IfOk result (λ same. same ≡ spec.same_item reading.now.source.now (option_copied block.entry) item.now there.now.source.now (option_copied twin.entry) other.now) }
{
    if let (Some(m), Some(n)) = (block, twin) {
        return same_text(alloc, reading, m.head, there, n.head);
    }
    same_kept(alloc, reading, item, there, other)
}

/// The number of the first place at which the kept ones of two lists of items differ. These blocks among them are
/// opened.
pub(crate) fn first_differing(
    alloc: Global,
    reading: &Reading<'_>,
    media: &[Media],
    items: &[Item],
    there: &Reading<'_>,
    twins: &[Media],
    others: &[Item],
) -> Result<Option<u32>, AllocError>
    requires { length items.now < 2 ^ 32 }
    ensures { IfOk result (λ place. place ≡ spec.first_differing reading.now.source.now media.now items.now there.now.source.now twins.now others.now) }
{
    let mut number = 0;
    let mut blocks = media;
    let mut left = items;
    let mut more = twins;
    let mut right = others;
    'left: while let Some((item, behind)) = next_kept(left) {
        let Some((other, after)) = next_kept(right) else {
            return Ok(Some(number));
        };
        let (block, blocks_behind) = split_block(blocks, item);
        let (twin, twins_behind) = split_block(more, other);
        if !same_item(alloc, reading, block, item, there, twin, other)? {
            return Ok(Some(number));
        }
        number += 1;
        blocks = blocks_behind;
        left = behind;
        more = twins_behind;
        right = after;
    }
    match next_kept(right) {
        Some(_) => Ok(Some(number)),
        None => Ok(None),
    }
}

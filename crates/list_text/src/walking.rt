//! The lines of the items of a sheet and of its opened bodies.

ghost use Rattle.std.specs.Prelude.{◌≡◌, ◌++◌, map, false, Some, is_some, OnOk};
ghost use Rattle.std.specs.List.{AllByRecursion, enumerate_from};
ghost use Rattle.css_model.specs.Sheets.Sound.{IsSound};
ghost use Rattle.doc_text.specs.DocText.{ended};
ghost use Rattle.media_groups.specs.Levels.{outer_level};
ghost use Rattle.list_text.specs.ListTexts as spec;
ghost use Rattle.list_text.specs.Standing as standing;

use crate::level::ListedLevel;
use crate::telling::put_line;
use line_places::Lines;
use media_groups::{Media, reading_of};
use std::alloc::{AllocError, Global};

/// Appends the lines of the items of a body.
fn put_inner(
    out: &mut Vec<u8>,
    alloc: Global,
    lines: &Lines<'_>,
    level: &ListedLevel<'_>,
) -> Result<(), AllocError>
    requires { IsSound level.now.source level.now.items }
    ensures { OnOk result (out.new.items ≡ out.old.items
        ++ ended (map (spec.item_line lines.now.text.now level.now false) (enumerate_from 1 level.now.items))) }
{
    let mut before = 0;
    let mut rest = level.items;
    'items: while let [item, others @ ..] = rest {
        put_line(out, alloc, lines, level, false, before + 1, item)?;
        before += 1;
        rest = others;
    }
    Ok(())
}

/// Appends the lines of the items of the body of an opened block.
fn put_body(
    out: &mut Vec<u8>,
    alloc: Global,
    lines: &Lines<'_>,
    block: &Media,
) -> Result<(), AllocError>
    requires { standing.IsBody lines.now.text.now block.now }
    ensures { OnOk result (out.new.items ≡ out.old.items ++ ended (spec.body_lines lines.now.text.now (Some block.now))) }
{
    let reading = reading_of(alloc, &block.sheet, block.body.text(lines.text))?;
    let level = ListedLevel {
        block: Some(block.item),
        start: block.body.start,
        reading,
        items: &block.sheet.items,
    };
    put_inner(out, alloc, lines, &level)
}

/// Whether the first of these blocks is the item of this number, from 1.
fn is_first(number: usize, blocks: &[Media]) -> bool
    ensures { result ≡ is_some (standing.first_of number blocks.now) }
{
    match blocks {
        [] => false,
        [block, ..] => block.item as usize + 1 == number,
    }
}

/// Those of these blocks that come after the item of this number, from 1.
fn after_first(number: usize, blocks: &[Media]) -> &[Media]
    ensures { result.now ≡ standing.after_first number blocks.now }
{
    if is_first(number, blocks) {
        &blocks[1..]
    } else {
        blocks
    }
}

/// Appends the lines of the body of the item of this number, from 1, if it is the first of these blocks.
fn put_first_body(
    out: &mut Vec<u8>,
    alloc: Global,
    lines: &Lines<'_>,
    number: usize,
    blocks: &[Media],
) -> Result<(), AllocError>
    requires { AllByRecursion (standing.IsBody lines.now.text.now) blocks.now }
    ensures { OnOk result (out.new.items ≡ out.old.items
        ++ ended (spec.body_lines lines.now.text.now (standing.first_of number blocks.now))) }
{
    if is_first(number, blocks) {
        put_body(out, alloc, lines, &blocks[0])
    } else {
        Ok(())
    }
}

/// Appends the lines of the items of a sheet, of which these are the opened blocks.
pub(crate) fn put_items(
    out: &mut Vec<u8>,
    alloc: Global,
    lines: &Lines<'_>,
    level: &ListedLevel<'_>,
    media: &[Media],
) -> Result<(), AllocError>
    requires outer { level.now ≡ outer_level lines.now.text.now level.now.items }
    requires sound { IsSound level.now.source level.now.items }
    requires blocks { standing.AreLeft lines.now.text.now level.now.items 0 level.now.items media.now }
    ensures { OnOk result (out.new.items ≡ out.old.items ++ ended (spec.list_lines lines.now.text.now level.now.items)) }
{
    let mut before = 0;
    let mut rest = level.items;
    let mut blocks = media;
    'items: while let [item, others @ ..] = rest {
        let number = before + 1;
        put_line(
            out,
            alloc,
            lines,
            level,
            is_first(number, blocks),
            number,
            item,
        )?;
        put_first_body(out, alloc, lines, number, blocks)?;
        blocks = after_first(number, blocks);
        before += 1;
        rest = others;
    }
    Ok(())
}

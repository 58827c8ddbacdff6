//! Which blocks of media are opened.

ghost use Rattle.std.specs.Prelude.{◌≡◌, ◌≤◌, ◌<◌, ◌-◌, ◌++◌, ◌||◌, [], true, if◌then◌else◌, nat_lt, length, Ok, None, IfOk, OnOk};
ghost use Rattle.std.specs.List.{cons_option, count_by, list_any};
ghost use Rattle.std.specs.Option.{option_map};
ghost use Rattle.css_model.specs.Sheets.Sheet.{sheet_of};
ghost use Rattle.css_model.specs.Sheets.SheetParts.{SheetParts};
ghost use Rattle.css_model.specs.Sheets.Spelling as spelling;
ghost use Rattle.media_groups.specs.Opened as spec;

use crate::blocks::{body_of, has_comment_sign, head_of, is_at_rule_named, is_media};
use crate::media::Media;
use crate::reading::{Reading, reading_of, reading_with};
use crate::signs::begins_with_mark;
use css_model::{Item, MAX_ITEMS, Piece, Sheet};
use sheet_read::{SheetError, read_with_lexemes};
use std::alloc::{AllocError, Global};

/// Whether an item is an `@import` rule.
fn is_import(reading: &Reading<'_>, item: &Item) -> bool
    ensures { result ≡ spec.is_import_item reading.now.source.now item.now }
{
    match item {
        Item::KeptBlock(piece) => {
            is_at_rule_named(b"import", reading.source, reading.tokens_in(*piece))
        }
        _ => false,
    }
}

/// Whether an item is an at-rule that counts at the top of a sheet alone.
fn is_top_item(reading: &Reading<'_>, item: &Item) -> bool
    ensures { result ≡ spec.is_top_item reading.now.source.now item.now }
{
    match item {
        Item::KeptBlock(piece) => {
            let tokens = reading.tokens_in(*piece);
            is_at_rule_named(b"import", reading.source, tokens)
                || is_at_rule_named(b"charset", reading.source, tokens)
        }
        _ => false,
    }
}

fn has_top_item(reading: &Reading<'_>, items: &[Item]) -> bool
    ensures { result ≡ list_any (spec.is_top_item reading.now.source.now) items.now }
{
    items.iter().any(|item| is_top_item(reading, item))
}

/// Whether a body with these items has what means something else inside a block.
fn differs_inside(body: &Reading<'_>, items: &[Item]) -> bool
    ensures { result ≡ (list_any spec.is_comment_sign (spelling.lexemes_of body.now.source.now)
        || list_any (spec.is_top_item body.now.source.now) items.now) }
{
    has_comment_sign(body.tokens()) || has_top_item(body, items)
}

/// The sheet of a body, where it means the same inside a block.
fn plain_sheet(body: &Reading<'_>, sheet: Sheet) -> Option<Sheet>
    requires { sheet_of body.now.source.now ≡ Ok sheet.items }
    ensures { option_map (λ (t : SheetParts). t.items) result ≡ spec.unless_marked body.now.source.now }
{
    if differs_inside(body, sheet.items.as_slice()) {
        None
    } else {
        Some(sheet)
    }
}

/// A body as a sheet of its own.
fn sheet_of_body(alloc: Global, body: &[u8]) -> Result<Option<Sheet>, AllocError>
    ensures { IfOk result (λ s. option_map (λ (t : SheetParts). t.items) s ≡ spec.sheet_of_body body.now) }
{
    if begins_with_mark(body) {
        return Ok(None);
    }
    match read_with_lexemes(alloc, body) {
        Ok((sheet, lexemes)) => {
            let reading = reading_with(&sheet, body, lexemes);
            Ok(plain_sheet(&reading, sheet))
        }
        Err(SheetError::Fault(_)) => Ok(None),
        Err(SheetError::NoMemory) => Err(AllocError),
    }
}

/// The rule in a piece as an opened block, if it is opened.
fn opened_rule(
    alloc: Global,
    reading: &Reading<'_>,
    number: u32,
    piece: Piece,
) -> Result<Option<Media>, AllocError>
    ensures { IfOk result (λ m. m ≡ spec.opened_rule reading.now.source.now number (spelling.tokens_in reading.now.source.now piece)) }
{
    let item = reading.tokens_in(piece);
    if !is_media(reading.source, item) {
        return Ok(None);
    }
    let body = body_of(item);
    match sheet_of_body(alloc, body.text(reading.source))? {
        None => Ok(None),
        Some(sheet) => Ok(Some(Media {
            item: number,
            head: head_of(item),
            body,
            sheet,
        })),
    }
}

/// The item of this number as an opened block, if it is opened.
fn opened_item(
    alloc: Global,
    reading: &Reading<'_>,
    number: u32,
    item: &Item,
) -> Result<Option<Media>, AllocError>
    ensures { IfOk result (λ m. m ≡ spec.opened_item reading.now.source.now number item.now) }
{
    match item {
        Item::KeptBlock(piece) => opened_rule(alloc, reading, number, *piece),
        _ => Ok(None),
    }
}

/// How many `@import` rules are among items.
fn imports_of(reading: &Reading<'_>, items: &[Item]) -> usize
    ensures { result ≡ count_by (spec.is_import_item reading.now.source.now) items.now }
{
    let mut imports = 0;
    let mut rest = items;
    'items: while let [item, behind @ ..] = rest {
        if is_import(reading, item) {
            imports += 1;
        }
        rest = behind;
    }
    imports
}

/// How many of so many `@import` rules come after an item.
fn imports_behind(reading: &Reading<'_>, item: &Item, imports: usize) -> usize
    requires { spec.is_import_item reading.now.source.now item.now ≡ true → 0 < imports }
    ensures { result ≡ (if spec.is_import_item reading.now.source.now item.now then imports - 1 else imports) }
{
    if is_import(reading, item) {
        imports - 1
    } else {
        imports
    }
}

/// Puts the item of this number after the opened blocks, if it is opened. It is not where an `@import` comes after it.
fn push_opened(
    alloc: Global,
    reading: &Reading<'_>,
    media: &mut Vec<Media>,
    number: u32,
    item: &Item,
    imports: usize,
) -> Result<(), AllocError>
    ensures { OnOk result (media.new.items
        ≡ media.old.items ++ cons_option (if nat_lt 0 imports then None else spec.opened_item reading.now.source.now number item.now) []) }
{
    if imports == 0 {
        if let Some(opened) = opened_item(alloc, reading, number, item)? {
            media.push(opened)?;
        }
    }
    Ok(())
}

/// The opened blocks of items, in their order.
fn opened_of(alloc: Global, reading: &Reading<'_>, items: &[Item]) -> Result<Vec<Media>, AllocError>
    requires { length items.now ≤ MAX_ITEMS }
    ensures { IfOk result (λ media. media.items ≡ spec.opened_of items.now reading.now.source.now) }
{
    let mut media = Vec::new(alloc);
    let mut rest = items;
    let mut number = 0;
    let mut imports = imports_of(reading, items);
    'items: while let [item, behind @ ..] = rest {
        imports = imports_behind(reading, item, imports);
        push_opened(alloc, reading, &mut media, number, item, imports)?;
        number += 1;
        rest = behind;
    }
    Ok(media)
}

/// The opened blocks of media of a sheet that was read from this source, in their order. They are `@media` rules
/// (CSS Conditional Rules 3, section 2) after the last `@import` whose bodies are sheets of their own. Which ones are
/// opened is own. The pieces of such a sheet are places in the bytes of its body. `AllocError` where memory is short.
pub fn open_media(alloc: Global, sheet: &Sheet, source: &[u8]) -> Result<Vec<Media>, AllocError>
    requires { sheet_of source.now ≡ Ok sheet.now.items }
    ensures { IfOk result (λ media. media.items ≡ spec.opened_of sheet.now.items source.now) }
{
    let reading = reading_of(alloc, sheet, source)?;
    open_media_in(alloc, sheet, &reading)
}

/// The same, by the tokens of the source.
pub fn open_media_in(
    alloc: Global,
    sheet: &Sheet,
    reading: &Reading<'_>,
) -> Result<Vec<Media>, AllocError>
    requires { sheet_of reading.now.source.now ≡ Ok sheet.now.items }
    ensures { IfOk result (λ media. media.items ≡ spec.opened_of sheet.now.items reading.now.source.now) }
{
    opened_of(alloc, reading, sheet.items.as_slice())
}

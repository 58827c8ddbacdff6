//! The lines of the winners.

ghost use Rattle.std.specs.Prelude.{◌≡◌, ◌++◌, if◌then◌else◌, map, IfOk, OnOk, decimal, string_bytes, encode_utf8_all};
ghost use Rattle.std.specs.List.{count_by, flat_map};
ghost use Rattle.cascade_eval.specs.Winners.{outcome_of};
ghost use Rattle.css_model.specs.Sheets.KeptItems.{is_kept};
ghost use Rattle.style_text.specs.Lines.{importance, kept_line, specificity_text, style_text, winner_line};

use cascade_eval::Won;
use css_model::{Item, Sheet, Specificity, Text};
use itoa::Buffer;
use std::alloc::{AllocError, Global};

/// 1 where an item is kept, otherwise 0.
fn kept_in(item: &Item) -> usize
    ensures { result ≡ (if is_kept item.now then 1 else 0) }
{
    match item {
        Item::Rule(_) => 0,
        Item::KeptRule(_) | Item::KeptBlock(_) => 1,
    }
}

/// How many items are kept. It takes no memory.
pub fn kept_count(items: &[Item]) -> usize
    ensures { result ≡ count_by is_kept items.now }
{
    let mut count = 0;
    for item in items {
        count += kept_in(item);
    }
    count
}

/// Appends a number in decimal.
fn push_number(out: &mut Vec<u8>, number: u32) -> Result<(), AllocError>
    ensures { OnOk result (out.new.items ≡ out.old.items ++ decimal number) }
{
    let mut buffer = Buffer::new();
    out.extend_from_slice(buffer.format(number).as_bytes())
}

/// Appends a specificity, as `A,B,C`. `AllocError` where memory is short.
pub fn push_specificity(out: &mut Vec<u8>, weight: Specificity) -> Result<(), AllocError>
    ensures { OnOk result (out.new.items ≡ out.old.items ++ specificity_text weight) }
{
    push_number(out, weight.a)?;
    out.push(b',')?;
    push_number(out, weight.b)?;
    out.push(b',')?;
    push_number(out, weight.c)
}

/// A text in UTF-8.
fn utf8(alloc: Global, text: &[char]) -> Result<String, AllocError>
    ensures { IfOk result (λ bytes. string_bytes bytes ≡ encode_utf8_all text.now) }
{
    text.iter().copied().collect(alloc)
}

/// Appends a text in UTF-8.
fn push_text(out: &mut Vec<u8>, alloc: Global, text: &Text) -> Result<(), AllocError>
    ensures { OnOk result (out.new.items ≡ out.old.items ++ encode_utf8_all text.now) }
{
    let bytes = utf8(alloc, text.codes())?;
    out.extend_from_slice(bytes.as_bytes())
}

/// Appends the sign of an important declaration.
fn push_importance(out: &mut Vec<u8>, important: bool) -> Result<(), AllocError>
    ensures { OnOk result (out.new.items ≡ out.old.items ++ importance important) }
{
    if important {
        out.extend_from_slice(b"!important")?;
    }
    Ok(())
}

/// Appends the line of a winner.
fn push_winner(out: &mut Vec<u8>, alloc: Global, won: &Won) -> Result<(), AllocError>
    ensures { OnOk result (out.new.items ≡ out.old.items ++ winner_line (outcome_of won.now)) }
{
    push_text(out, alloc, &won.decl.name)?;
    out.push(b':')?;
    out.extend_from_slice(won.decl.value.bytes())?;
    push_importance(out, won.decl.important)?;
    out.push(b' ')?;
    push_specificity(out, won.weight)?;
    out.push(b'\n')?;
    Ok(())
}

/// Appends the lines of winners.
fn push_winners(out: &mut Vec<u8>, alloc: Global, wons: &[Won]) -> Result<(), AllocError>
    ensures { OnOk result (out.new.items ≡ out.old.items ++ flat_map winner_line (map (λ won. outcome_of won) wons.now)) }
{
    for won in wons {
        push_winner(out, alloc, won)?;
    }
    Ok(())
}

/// The line with the number of kept items.
fn kept_line(alloc: Global, items: &[Item]) -> Result<Vec<u8>, AllocError>
    ensures { IfOk result (λ text. text.items ≡ kept_line items.now) }
{
    let mut text = b"kept ".to_vec(alloc)?;
    let mut buffer = Buffer::new();
    text.extend_from_slice(buffer.format(kept_count(items)).as_bytes())?;
    text.push(b'\n')?;
    Ok(text)
}

/// The lines of a sheet and of those that win.
pub(crate) fn lines(alloc: Global, sheet: &Sheet, wons: &[Won]) -> Result<Vec<u8>, AllocError>
    ensures { IfOk result (λ text. text.items ≡ style_text sheet.now.items (map (λ won. outcome_of won) wons.now)) }
{
    let mut text = kept_line(alloc, sheet.items.as_slice())?;
    push_winners(&mut text, alloc, wons)?;
    Ok(text)
}

//! The lines of what is found in two sheets.

ghost use Rattle.std.specs.Prelude.{◌≡◌, ◌++◌, Ok, IfOk, OnOk};
ghost use Rattle.css_model.specs.Sheets.Sheet.{sheet_of};
ghost use Rattle.same_text.specs.Telling as spec;
ghost use Rattle.why_text.specs.PairTexts.{IsPlace};

use css_model::{Example, Sheet};
use doc_text::print_doc;
use itoa::Buffer;
use merge_laws::read_keeps_the_limits;
use sheet_laws::read_is_sound;
use sheet_order::PairPlace;
use sheet_same::Compared;
use std::alloc::{AllocError, Global};
use why_text::print_pair;

/// A sheet that is read from a source.
#[derive(Drop)]
pub(crate) struct Printable<'a> {
    pub(crate) sheet: &'a Sheet,
    pub(crate) source: &'a [u8],
    ghost read: { sheet_of source.now ≡ Ok sheet.now.items },
}

/// Appends a pair of a sheet as a rule, in a line of its own.
fn push_pair(
    out: &mut Vec<u8>,
    alloc: Global,
    of: &Printable<'_>,
    place: PairPlace,
) -> Result<(), AllocError>
    requires place { IsPlace of.now.sheet.now.items place }
    ensures { OnOk result (spec.HasPairLine of.now.source.now of.now.sheet.now.items place out.old.items out.new.items) }
{
    // Laws, which do nothing.
    read_is_sound();
    read_keeps_the_limits();
    let text = print_pair(alloc, of.source, of.sheet, place)?;
    out.extend_from_slice(text.as_slice())?;
    out.push(b'\n')?;
    Ok(())
}

/// Appends a number in decimal, in the rest of a line.
fn push_number(out: &mut Vec<u8>, number: u64) -> Result<(), AllocError>
    ensures { OnOk result (out.new.items ≡ out.old.items ++ spec.number_line number) }
{
    let mut buffer = Buffer::new();
    out.extend_from_slice(buffer.format(number).as_bytes())?;
    out.push(b'\n')?;
    Ok(())
}

/// The line of a word and a pair as a rule.
fn print_lacking(
    alloc: Global,
    word: &[u8],
    of: &Printable<'_>,
    place: PairPlace,
) -> Result<Vec<u8>, AllocError>
    requires place { IsPlace of.now.sheet.now.items place }
    ensures { IfOk result (λ text. spec.HasPairLine of.now.source.now of.now.sheet.now.items place word.now text.items) }
{
    let mut out = word.to_vec(alloc)?;
    push_pair(&mut out, alloc, of, place)?;
    Ok(out)
}

/// The line of a word and a number.
fn print_number(alloc: Global, word: &[u8], number: u64) -> Result<Vec<u8>, AllocError>
    ensures { IfOk result (λ text. text.items ≡ word.now ++ spec.number_line number) }
{
    let mut out = word.to_vec(alloc)?;
    push_number(&mut out, number)?;
    Ok(out)
}

/// The lines of two pairs in another order and of a document.
fn print_reversed(
    alloc: Global,
    of: &Printable<'_>,
    first: PairPlace,
    second: PairPlace,
    example: &Example,
) -> Result<Vec<u8>, AllocError>
    requires first { IsPlace of.now.sheet.now.items first }
    requires second { IsPlace of.now.sheet.now.items second }
    ensures { IfOk result (λ text. spec.IsReversedText of.now.source.now of.now.sheet.now.items first second example.now text.items) }
{
    let mut out = b"reversed\n".to_vec(alloc)?;
    push_pair(&mut out, alloc, of, first)?;
    push_pair(&mut out, alloc, of, second)?;
    let document = print_doc(alloc, example)?;
    out.extend_from_slice(document.as_slice())?;
    Ok(out)
}

/// The line of a reason why it is not known whether two selectors meet.
fn print_unsure(alloc: Global, reason: u32) -> Result<Vec<u8>, AllocError>
    ensures { IfOk result (λ text. text.items ≡ spec.unsure_line reason) }
{
    if reason == 0 {
        return b"unsure spent\n".to_vec(alloc);
    }
    print_number(alloc, b"unsure ", u64::from(reason))
}

/// The lines of what is found in two sheets.
pub(crate) fn print_compared(
    alloc: Global,
    side: &Printable<'_>,
    there: &Printable<'_>,
    compared: &Compared,
) -> Result<Vec<u8>, AllocError>
    requires places { spec.HasPlaces side.now.sheet.now.items there.now.sheet.now.items compared.now }
    ensures { IfOk result (λ text. spec.IsComparedText
        side.now.source.now side.now.sheet.now.items there.now.source.now there.now.sheet.now.items compared.now text.items) }
{
    match compared {
        Compared::Same => b"same\n".to_vec(alloc),
        Compared::Missing(place) => print_lacking(alloc, b"missing ", side, *place),
        Compared::Extra(place) => print_lacking(alloc, b"extra ", there, *place),
        Compared::KeptItem(number) => print_number(alloc, b"kept ", u64::from(*number) + 1),
        Compared::Reversed {
            first,
            second,
            example,
        } => print_reversed(alloc, side, *first, *second, example),
        Compared::Unsure(reason) => print_unsure(alloc, *reason),
    }
}

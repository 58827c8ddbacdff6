//! What is found in two style sheets, from bytes to bytes.

ghost use Rattle.std.specs.Prelude.{◌≡◌, ◌<◌, Ok, Some, IfErr, IfOk, length};
ghost use Rattle.std.specs.List.{AllByRecursion};
ghost use Rattle.css_model.specs.Sheets.Sheet.{sheet_of};
ghost use Rattle.css_model.specs.Text.Source.{text_at};
ghost use Rattle.media_groups.specs.Laws.{IsBlockOf};
ghost use Rattle.same_text.specs.SameTexts as spec;
ghost use Rattle.same_text.specs.Telling.{HasPlaces, IsComparedText};
ghost use Rattle.sheet_order.specs.Allowing.{Stays};

use crate::error::SameError;
use crate::telling::{Printable, print_compared};
use css_model::{FaultKind, MAX_BYTES, Sheet, SheetFault};
use media_groups::{Media, open_media, opened_blocks_are_sheets};
use order_laws::listed_stands_last;
use overlap::Pairs;
use sheet_read::{SheetError, read_sheet};
use sheet_same::{Compared, Difference, compare};
use std::alloc::{AllocError, Global};

/// The body of an opened block.
fn body_of<'a>(source: &'a [u8], block: &'a Media) -> Printable<'a>
    requires { IsBlockOf source.now block.now }
    ensures source { result.source.now ≡ text_at source.now block.now.body }
    ensures sheet { result.sheet.now ≡ block.now.sheet }
{
    Printable {
        sheet: &block.sheet,
        source: block.body.text(source),
    }
}

/// The body of the opened block of this number.
fn body_at<'a>(source: &'a [u8], media: &'a [Media], number: u32) -> Printable<'a>
    requires all { AllByRecursion (IsBlockOf source.now) media.now }
    requires below { number < length media.now }
    ensures { spec.IsBodyAt source.now media.now number result.source.now result.sheet.now.items }
{
    let block = &media[number as usize];
    body_of(source, block)
}

/// The lines of what is found in the bodies of the opened blocks of this number.
fn print_inside(
    alloc: Global,
    sheet: &Sheet,
    source: &[u8],
    other: &Sheet,
    there: &[u8],
    compared: &Compared,
    number: u32,
) -> Result<Vec<u8>, AllocError>
    requires first { sheet_of source.now ≡ Ok sheet.now.items }
    requires second { sheet_of there.now ≡ Ok other.now.items }
    requires places { spec.TellsPlaces source.now sheet.now.items there.now other.now.items compared.now (Some number) }
    ensures { IfOk result (λ text. spec.IsTold source.now sheet.now.items there.now other.now.items compared.now (Some number) text.items) }
{
    opened_blocks_are_sheets();
    let media = open_media(alloc, sheet, source)?;
    let twins = open_media(alloc, other, there)?;
    let side = body_at(source, &media, number);
    let far = body_at(there, &twins, number);
    print_compared(alloc, &side, &far, compared)
}

/// The lines of what is found in the sheets themselves.
fn print_outside(
    alloc: Global,
    sheet: &Sheet,
    source: &[u8],
    other: &Sheet,
    there: &[u8],
    compared: &Compared,
) -> Result<Vec<u8>, AllocError>
    requires first { sheet_of source.now ≡ Ok sheet.now.items }
    requires second { sheet_of there.now ≡ Ok other.now.items }
    requires places { HasPlaces sheet.now.items other.now.items compared.now }
    ensures { IfOk result (λ text. IsComparedText source.now sheet.now.items there.now other.now.items compared.now text.items) }
{
    let side = Printable { sheet, source };
    let far = Printable {
        sheet: other,
        source: there,
    };
    print_compared(alloc, &side, &far, compared)
}

/// The lines of what is found in two sheets.
fn print_difference(
    alloc: Global,
    sheet: &Sheet,
    source: &[u8],
    other: &Sheet,
    there: &[u8],
    difference: &Difference,
) -> Result<Vec<u8>, AllocError>
    requires first { sheet_of source.now ≡ Ok sheet.now.items }
    requires second { sheet_of there.now ≡ Ok other.now.items }
    requires places { spec.TellsPlaces source.now sheet.now.items there.now other.now.items difference.now.compared difference.now.body }
    ensures { IfOk result (λ text. spec.IsTold source.now sheet.now.items there.now other.now.items difference.now.compared difference.now.body text.items) }
{
    let compared = &difference.compared;
    match difference.body {
        None => print_outside(alloc, sheet, source, other, there, compared),
        Some(number) => print_inside(alloc, sheet, source, other, there, compared, number),
    }
}

/// The sheet that the first of two texts is read as.
fn first_sheet(alloc: Global, text: &[u8]) -> Result<Sheet, SameError>
    ensures ok { IfOk result (λ sheet. sheet_of text.now ≡ Ok sheet.items) }
    ensures err { IfErr result (λ e. spec.IsFirst text.now e) }
{
    match read_sheet(alloc, text) {
        Ok(sheet) => Ok(sheet),
        Err(SheetError::Fault(fault)) => Err(SameError::First(fault)),
        Err(SheetError::NoMemory) => Err(SameError::NoMemory),
    }
}

/// The sheet that the second of two texts is read as.
fn second_sheet(alloc: Global, text: &[u8]) -> Result<Sheet, SameError>
    ensures ok { IfOk result (λ sheet. sheet_of text.now ≡ Ok sheet.items) }
    ensures err { IfErr result (λ e. spec.IsSecond text.now e) }
{
    match read_sheet(alloc, text) {
        Ok(sheet) => Ok(sheet),
        Err(SheetError::Fault(fault)) => Err(SameError::Second(fault)),
        Err(SheetError::NoMemory) => Err(SameError::NoMemory),
    }
}

/// The lines of what is found in two texts that are read as sheets.
#[tactic(auto, using(sheet_order::proofs::ForCallers::stays_itself, crate::proofs::Locating::told_places))]
fn compare_texts(
    alloc: Global,
    pairs: &mut Pairs,
    source: &[u8],
    there: &[u8],
) -> Result<Vec<u8>, SameError>
    ensures stays { Stays pairs.old pairs.new }
    ensures text { IfOk result (λ text. spec.AreCompared source.now there.now pairs.new text.items) }
    ensures err { IfErr result (λ e. spec.IsOfTwo source.now there.now e) }
{
    listed_stands_last();
    let sheet = first_sheet(alloc, source)?;
    let other = second_sheet(alloc, there)?;
    let difference = compare(alloc, pairs, &sheet, source, &other, there)?;
    pairs.are_true();
    let text = print_difference(alloc, &sheet, source, &other, there, &difference)?;
    Ok(text)
}

/// The most bytes that two sheets may have together.
pub const MAX_BOTH: u32 = 2 * MAX_BYTES;

/// The fault of a sheet of too many bytes.
fn too_long() -> SheetFault
    ensures { result ≡ spec.too_long_fault }
{
    SheetFault {
        kind: FaultKind::TooLong,
        at: MAX_BYTES,
    }
}

/// What is found in two style sheets, as lines of bytes. The first sheet has the first `split` bytes of the text, the
/// second one the others. Each line ends with a line feed.
///
/// - `same` where nothing is found: the winners are the same in every legal document, as `same_texts_win_alike` says;
/// - `missing RULE` with a pair that the second sheet lacks, as a rule;
/// - `extra RULE` with a pair that it has besides, as a rule;
/// - `kept N` where the kept items of this number, from 1, differ, or are in another order with a pair;
/// - `reversed`, two pairs in another order, each as a rule, and a document in which the marked element matches both
///   selectors;
/// - `unsure R` where two selectors are not compared, with the number of the reason;
/// - `unsure spent` where the budget of the pairs was spent for them.
///
/// Numbers and rules are those of the sheets, or of the bodies of opened blocks of media where it is found.
///
/// `text` is any list of bytes. The errors come in this order, each exactly where:
///
/// - `First`: the text has more than 2,097,152 bytes, as a first sheet that is too long;
/// - `NoSplit`: the text has fewer than `split` bytes;
/// - `First`: the first sheet has a fault, with its place in bytes from 0;
/// - `Second`: the second sheet has a fault, with the place in its own bytes from 0.
///
/// `NoMemory` comes where memory is short. The answers for selectors are asked of `pairs`, which holds them afterwards.
/// All that was held there stays, also after an error.
#[tactic(auto, using(sheet_order::proofs::ForCallers::stays_itself))]
pub fn same_lines(
    alloc: Global,
    pairs: &mut Pairs,
    text: &[u8],
    split: u32,
) -> Result<Vec<u8>, SameError>
    ensures stays { Stays pairs.old pairs.new }
    ensures text { IfOk result (λ lines. spec.IsSameText text.now split pairs.new lines.items) }
    ensures err { IfErr result (λ e. spec.IsCause text.now split e) }
{
    if text.len() > MAX_BOTH as usize {
        return Err(SameError::First(too_long()));
    }
    if text.len() < split as usize {
        return Err(SameError::NoSplit(split));
    }
    let (source, there) = text.split_at(split as usize);
    compare_texts(alloc, pairs, source, there)
}

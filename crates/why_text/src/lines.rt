//! Why a rule of a style sheet may not be moved.

ghost use Rattle.std.specs.Prelude.{◌≡◌, ◌<◌, IfErr, IfOk, Ok, length, slice_get};
ghost use Rattle.css_model.specs.Sheets.Sheet.{sheet_of};
ghost use Rattle.why_text.specs.Explaining.{AsksAmong};
ghost use Rattle.why_text.specs.WhyTexts as spec;
ghost use Rattle.why_text.specs.WhyTexts.{Asks, IsCause, IsMoveText, IsWhyText, reversed_with};

use crate::error::WhyError;
use crate::explaining::explain;
use crate::told::print_told;
use css_model::Sheet;
use merge_laws::{read_is_plannable, read_keeps_the_limits};
use overlap::Pairs;
use sheet_laws::read_is_sound;
use sheet_read::read_sheet;
use std::alloc::{AllocError, Global};

/// Whether a sheet of so many items has one of this number, counted from 1.
fn is_item(count: usize, number: u32) -> bool
    ensures { result ≡ spec.is_item count number }
{
    1 <= number && number as usize <= count
}

/// The first of two numbers, counted from 1, that no item of a sheet of so many has.
fn no_item(count: usize, from: u32, to: u32) -> Option<u32>
    ensures { result ≡ spec.no_item count from to }
{
    if !is_item(count, from) {
        Some(from)
    } else if !is_item(count, to) {
        Some(to)
    } else {
        None
    }
}

/// The lines of what hinders the move of an item of a sheet, both numbers from 0.
fn explain_move(
    alloc: Global,
    pairs: &mut Pairs,
    source: &[u8],
    sheet: &Sheet,
    from: u32,
    to: u32,
) -> Result<Vec<u8>, AllocError>
    requires read { sheet_of source.now ≡ Ok sheet.now.items }
    requires from { from < length sheet.now.items }
    requires to { to < length sheet.now.items }
    ensures asks { AsksAmong sheet.now.items (reversed_with sheet.now.items from to (slice_get sheet.now.items from)) pairs.old pairs.new }
    ensures text { IfOk result (λ text. IsMoveText source.now sheet.now.items from to pairs.new text.items) }
{
    // Laws, which do nothing.
    read_is_plannable();
    read_keeps_the_limits();
    read_is_sound();
    let told = explain(alloc, pairs, sheet, from, to)?;
    pairs.are_true();
    print_told(alloc, source, sheet, &told)
}

/// What hinders the move of an item of a style sheet to the place of another one, both numbers from 1, as lines of
/// bytes. Each line ends with a line feed.
///
/// - `free` where all that the move reverses is pairs whose selectors are answered to be apart;
/// - `kept N` where the item is kept, or the first thing that is reversed is the kept item of this number;
/// - `outside R` where two selectors are not compared, with the number of the reason;
/// - `spent` where the budget of the pairs was spent for them;
/// - `blocked` otherwise, the moved pair and the other one, each as a rule, and a document in which the marked element
///   matches both selectors.
///
/// `text` is any list of bytes.
///
/// | error | exactly when |
/// |---|---|
/// | `Sheet` | first: the text has a fault as a sheet, with its place in bytes from 0 |
/// | `NoItem` | then: no item has the number `from`, with this number; else none has `to` |
///
/// `NoMemory` comes where memory is short. The answers for selectors are asked of `pairs`, which holds them afterwards.
/// All that was held there stays, also after an error.
pub fn why_lines(
    alloc: Global,
    pairs: &mut Pairs,
    text: &[u8],
    from: u32,
    to: u32,
) -> Result<Vec<u8>, WhyError>
    ensures asks { Asks (sheet_of text.now) from to pairs.old pairs.new }
    ensures text { IfOk result (λ lines. IsWhyText text.now from to pairs.new lines.items) }
    ensures err { IfErr result (λ e. IsCause text.now from to e) }
{
    let sheet = read_sheet(alloc, text)?;
    if let Some(number) = no_item(sheet.items.len(), from, to) {
        return Err(WhyError::NoItem(number));
    }
    let lines = explain_move(alloc, pairs, text, &sheet, from - 1, to - 1)?;
    Ok(lines)
}

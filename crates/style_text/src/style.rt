//! The winners in a given document, from bytes to bytes.

ghost use Rattle.std.specs.Prelude.{◌≡◌, IfErr, IfOk, Ok};
ghost use Rattle.cascade_eval.specs.Winners.{AreWinners};
ghost use Rattle.css_model.specs.Documents.RunDocuments.{KeepsRules};
ghost use Rattle.css_model.specs.Sheets.Limits.{max_bytes};
ghost use Rattle.css_model.specs.Sheets.Sheet.{sheet_of};
ghost use Rattle.style_text.specs.Styled.{too_long, IsCause, IsStyled, Styles};

use crate::fault::StyleError;
use crate::lines::lines;
use crate::reading::{read_document, read_source};
use crate::split::split_input;
use cascade_eval::{Won, winners};
use css_model::{Example, FaultKind, MAX_BYTES, Sheet, SheetFault};
use selector_laws::read_selectors_keep_the_limits;
use sheet_laws::read_is_sound;
use std::alloc::{AllocError, Global};

/// The fault of an input with more bytes than are read.
pub fn too_long() -> SheetFault
    ensures { result ≡ too_long }
{
    SheetFault {
        kind: FaultKind::TooLong,
        at: MAX_BYTES,
    }
}

/// The winners of a sheet that was read.
fn winners_of(
    alloc: Global,
    x: &Example,
    source: &[u8],
    sheet: &Sheet,
) -> Result<Vec<Won>, AllocError>
    requires rules { KeepsRules x.now }
    requires read { sheet_of source.now ≡ Ok sheet.now.items }
    ensures { IfOk result (λ wons. AreWinners x.now sheet.now.items wons.items) }
{
    // Laws that keep the selectors of the sheet small; they do nothing.
    read_is_sound();
    read_selectors_keep_the_limits();
    winners(alloc, x, sheet)
}

/// What is printed for a document's text and a sheet.
fn styled(alloc: Global, document: &[u8], source: &[u8]) -> Result<Vec<u8>, StyleError>
    ensures { Styles result document.now source.now }
{
    let x = read_document(alloc, document)?;
    let sheet = read_source(alloc, source)?;
    let wons = winners_of(alloc, &x, source, &sheet)?;
    Ok(lines(alloc, &sheet, wons.as_slice())?)
}

/// Which declarations of a style sheet win in a document, as lines of bytes (CSS Cascading 3, section 6). Every value
/// counts as one that a browser understands. `input` is the text of a document, as `print_doc` writes it, then an empty
/// line and a style sheet. Without an empty line the sheet is empty.
///
/// - The first line has the number of kept items of the sheet: what these apply does not count.
/// - Then comes a line `NAME:VALUE A,B,C` for each property that a rule gives to the marked element, or to its
///   pseudo-element. It has the declaration that wins, with `!important` after its value where it is important, and the
///   specificity of the selector that it applies by.
/// - The names are decoded, in UTF-8, and ascend by their code points.
///
/// | error | exactly when |
/// |---|---|
/// | `Sheet(TooLong at 1048576)` | first: the input has more than 1,048,576 bytes |
/// | `Document` | then: `read_doc` has that fault |
/// | `Sheet` | then: the sheet has that fault, at a place in bytes from its start |
///
/// `NoMemory` comes where memory is short.
pub fn style_lines(alloc: Global, input: &[u8]) -> Result<Vec<u8>, StyleError>
    ensures ok { IfOk result (λ text. IsStyled input.now text.items) }
    ensures err { IfErr result (IsCause input.now) }
{
    if input.len() > MAX_BYTES as usize {
        return Err(StyleError::Sheet(too_long()));
    }
    let (document, source) = split_input(input);
    styled(alloc, document, source)
}

//! What can go from a style sheet without a change of its winners, from bytes to bytes.

ghost use Rattle.std.specs.Prelude.{◌≡◌, Ok, IfErr, IfOk};
ghost use Rattle.css_model.specs.Sheets.Sheet.{sheet_of};
ghost use Rattle.dead_sel.specs.Held.{is_dead};
ghost use Rattle.media_groups.specs.Opened.{opened_of};
ghost use Rattle.sheet_read.specs.Reading.{Refuses};
ghost use Rattle.lint_text.specs.Asking.{AsksEach, AsksOf, all_selectors};
ghost use Rattle.lint_text.specs.LintTexts as spec;

use crate::asking::settle_all;
use crate::searching::find_all;
use crate::sorting::{in_order, lines_of};
use css_model::Sheet;
use media_groups::{Media, open_media, opened_blocks_are_sheets};
use overlap::Pairs;
use print_laws::selectors_are_in_the_profile;
use sheet_laws::read_is_sound;
use sheet_read::{SheetError, read_sheet};
use std::alloc::{AllocError, Global};

/// The lines of what is found in a sheet with these opened blocks, by what is held.
fn tell_found(
    alloc: Global,
    pairs: &Pairs,
    text: &[u8],
    sheet: &Sheet,
    media: &[Media],
) -> Result<Vec<u8>, AllocError>
    requires read { sheet_of text.now ≡ Ok sheet.now.items }
    requires blocks { media.now ≡ opened_of sheet.now.items text.now }
    ensures { IfOk result (λ lines. spec.TellsFindings (is_dead pairs.now.answers) text.now sheet.now.items lines.items) }
{
    let found = find_all(alloc, pairs, text, sheet, media)?;
    let sorted = in_order(found)?;
    lines_of(alloc, &sorted)
}

/// The lines of what is found in a sheet that was read. Its selectors are asked for.
#[tactic(auto, using(crate::proofs::Asked::asks_none, crate::proofs::Profile::all_in_profile))]
fn lint_sheet(
    alloc: Global,
    pairs: &mut Pairs,
    text: &[u8],
    sheet: &Sheet,
) -> Result<Vec<u8>, AllocError>
    requires { sheet_of text.now ≡ Ok sheet.now.items }
    ensures asks { AsksEach pairs.old pairs.new (all_selectors text.now sheet.now.items) }
    ensures tells { IfOk result (λ lines. spec.IsLintText pairs.new text.now lines.items) }
{
    // Laws, which do nothing.
    read_is_sound();
    selectors_are_in_the_profile();
    opened_blocks_are_sheets();
    let media = open_media(alloc, sheet, text)?;
    settle_all(alloc, pairs, text, sheet, &media)?;
    pairs.are_true();
    tell_found(alloc, pairs, text, sheet, &media)
}

/// What can go from a style sheet without a change of its winners, as lines of bytes. The lines ascend by place. Each
/// ends with a line feed.
///
/// - `LINE:COLUMN dead SELECTOR`: a selector of a style rule that matches nothing in any legal document, with the place
///   where it begins.
/// - `LINE:COLUMN repeated DECLARATION LINE:COLUMN`: a declaration of a style rule that each selector of the rule has
///   again later, with the place of its property, and the place where the pair with the rule's first selector is last.
///
/// The style rules of the sheet are looked at, and those in the bodies of opened `@media` blocks, each body as a sheet of
/// its own. Places are those of `line_places`. Control codes of ASCII are spaces in a selector and in a declaration. A
/// selector that was not decided is not told: it asks an attribute for a word and refuses each white space that could
/// separate it (Selectors 3, sections 6.3.1 and 6.3.2), or the budget of the pairs was spent first.
///
/// `source` is any list of bytes. The answers are asked of `pairs`, which holds them afterwards: each selector with `*`
/// and its pseudo-element. All that was held there stays, also after an error. `Fault` exactly where the sheet has one,
/// with its place in bytes from 0; then nothing is asked. `NoMemory` where memory is short.
#[tactic(auto, using(crate::proofs::Reading::asks_nothing, crate::proofs::Reading::asks_of_read))]
pub fn lint_lines(alloc: Global, pairs: &mut Pairs, source: &[u8]) -> Result<Vec<u8>, SheetError>
    ensures asks { AsksOf source.now (sheet_of source.now) pairs.old pairs.new }
    ensures tells { IfOk result (λ text. spec.IsLintText pairs.new source.now text.items) }
    ensures err { IfErr result (λ e. Refuses e (sheet_of source.now)) }
{
    let sheet = read_sheet(alloc, source)?;
    Ok(lint_sheet(alloc, pairs, source, &sheet)?)
}
